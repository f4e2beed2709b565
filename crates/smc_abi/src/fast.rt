ghost use Rattle.std.specs.Prelude.{◌≡◌, ◌<◌, ◌↔◌, IsTrue};
ghost use Rattle.smc_abi.specs.FastAnswer.{capabilities_of, fast_answer_of};

use crate::answer::{Answer, ENOTAVAIL, OK};
use crate::call::FastCall;
use crate::capabilities::{NormalCapabilities, SecureCapabilities};
use crate::regs::Regs;
use bitflags::Flags;

/// `OPTEE_MSG_UID_0` to `OPTEE_MSG_UID_3` of `optee_msg.h`.
const API_UID: Answer = Answer::Words(0x384f_b3e0, 0xe7f8_11e3, 0xaf63_0002, 0xa5d5_c51b);
/// `OPTEE_MSG_REVISION_MAJOR` and `OPTEE_MSG_REVISION_MINOR` of `optee_msg.h`.
const API_REVISION: Answer = Answer::Words(2, 0, 0, 0);
/// `OPTEE_MSG_OS_OPTEE_UUID_0` to `OPTEE_MSG_OS_OPTEE_UUID_3` of `optee_msg.h`.
const OS_UUID: Answer = Answer::Words(0x4861_78e0, 0xe7f8_11e3, 0xbc5e_0002, 0xa5d5_c51b);
/// The revision of this core, this project's own.
const OS_REVISION: Answer = Answer::Words(4, 0, 0, 0);

/// The parameters for which the RPC argument beside the message argument has room.
const RPC_PARAMS: u32 = 4;

/// What a fast call is answered by a core of `threads` threads. Takes no memory and changes nothing.
pub fn fast_answer(call: FastCall, regs: &Regs, threads: u8) -> Answer
    ensures { result ≡ fast_answer_of call regs.now.a threads }
{
    match call {
        FastCall::CallsUid => API_UID,
        FastCall::CallsRevision => API_REVISION,
        FastCall::OsUuid => OS_UUID,
        FastCall::OsRevision => OS_REVISION,
        // there is no reserved area
        FastCall::ShmConfig => Answer::Words(ENOTAVAIL, 0, 0, 0),
        FastCall::Capabilities => exchange_capabilities(regs.a[1]),
        // the cache is always empty, so there is nothing to give back
        FastCall::DisableShmCache => Answer::Words(ENOTAVAIL, 0, 0, 0),
        // nothing is cached afterwards either
        FastCall::EnableShmCache => Answer::Words(OK, 0, 0, 0),
        FastCall::ThreadCount => Answer::Words(OK, u32::from(threads), 0, 0),
    }
}

/// Tells the core's capabilities, and how many parameters an RPC argument beside the message argument has room for. It
/// refuses those of the normal world that it does not know.
fn exchange_capabilities(normal: u32) -> Answer
    ensures { result ≡ capabilities_of normal }
{
    let secure = SecureCapabilities::DYNAMIC_MEMORY
        .union(SecureCapabilities::NULL_REFERENCE)
        .union(SecureCapabilities::RPC_ARGUMENT);
    if are_known(normal) {
        Answer::Words(OK, secure.bits(), 0, RPC_PARAMS)
    } else {
        Answer::Words(ENOTAVAIL, secure.bits(), 0, 0)
    }
}

/// Whether each of these bits of the normal world has a name.
fn are_known(normal: u32) -> bool
    ensures { IsTrue result ↔ (normal < 2) }
{
    NormalCapabilities::from_bits(normal).is_some()
}
