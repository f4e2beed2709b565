//! What RAM tells of a call that has ended.

ghost use Rattle.std.specs.Prelude.{◌≡◌};
ghost use Rattle.teec.specs.Results.{opened_in, result_in};

use crate::params::low_word;
use crate::places::ARGUMENT_AT;
use msg_args::{origin_at, ret_at, session_at};
use smc_port::World;
use ta_params::CallResult;
use ta_params::codes::TEE_SUCCESS;

/// What an open came to.
#[derive(Clone, Copy)]
pub struct Opened {
    /// The session's number, 0 where the result isn't SUCCESS.
    pub session: u32,
    pub result: CallResult,
}

/// The result, and where it comes from.
pub(crate) fn result_in<W: World>(world: &W) -> CallResult
    ensures { result ≡ result_in (W.ram world.now) }
{
    CallResult {
        result: low_word(world, ret_at(ARGUMENT_AT)),
        origin: low_word(world, origin_at(ARGUMENT_AT)),
    }
}

/// The result of an open, with its session where that is SUCCESS.
pub(crate) fn opened_in<W: World>(world: &W) -> Opened
    ensures { result ≡ opened_in (W.ram world.now) }
{
    let result = result_in(world);
    let session = if result.result == TEE_SUCCESS {
        low_word(world, session_at(ARGUMENT_AT))
    } else {
        0
    };
    Opened { session, result }
}
