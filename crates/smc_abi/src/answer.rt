ghost use Rattle.std.specs.Prelude.{◌≡◌, [], ◌∷◌};
ghost use Rattle.smc_abi.specs.Answer.{pair, registers_of, words_of};

use crate::regs::Regs;

// `OPTEE_SMC_RETURN_EBUSY`, 2, and `OPTEE_SMC_RETURN_ENOMEM`, 6, are never answered.

/// `OPTEE_SMC_RETURN_OK`.
pub const OK: u32 = 0;
/// `OPTEE_SMC_RETURN_ETHREAD_LIMIT`: no thread is free.
pub const ETHREAD_LIMIT: u32 = 1;
/// `OPTEE_SMC_RETURN_ERESUME`: no suspended call of this client on the thread.
pub const ERESUME: u32 = 3;
/// `OPTEE_SMC_RETURN_EBADADDR`: no message argument at the address.
pub const EBADADDR: u32 = 4;
/// `OPTEE_SMC_RETURN_EBADCMD`: no command of this core in the message argument.
pub const EBADCMD: u32 = 5;
/// `OPTEE_SMC_RETURN_ENOTAVAIL`: what was asked for is not there.
pub const ENOTAVAIL: u32 = 7;
/// `OPTEE_SMC_RETURN_UNKNOWN_FUNCTION`: a0 names no function.
pub const UNKNOWN_FUNCTION: u32 = 0xffff_ffff;

/// `OPTEE_SMC_RETURN_RPC_ALLOC`: a1 has the bytes wanted, a3 the thread.
pub const RPC_ALLOC: u32 = 0xffff_0000;
/// `OPTEE_SMC_RETURN_RPC_FREE`: a1 and a2 have the buffer's cookie, a3 the thread.
pub const RPC_FREE: u32 = 0xffff_0002;
/// `OPTEE_SMC_RETURN_RPC_FOREIGN_INTR`: a3 has the thread.
pub const RPC_INTERRUPT: u32 = 0xffff_0004;
/// `OPTEE_SMC_RETURN_RPC_CMD`: a1 and a2 have the cookie of the request's buffer, a3 the thread.
pub const RPC_CMD: u32 = 0xffff_0005;

/// What a call is answered. A thread is the number to resume with.
#[derive(Clone, Copy)]
pub enum Answer {
    /// The words of a0 to a3.
    Words(u32, u32, u32, u32),
    /// Asks for a buffer of `size` bytes.
    Alloc { size: u32, thread: u8 },
    /// Gives the buffer of `cookie` back.
    Free { cookie: u64, thread: u8 },
    /// Asks for what stands in the buffer of `cookie`.
    Cmd { cookie: u64, thread: u8 },
    /// The call was interrupted, and is to be resumed.
    Interrupt { thread: u8 },
}

impl Answer {
    /// What a0 to a3 hold. A register for which `optee_smc.h` names no value, or which it lets stand,
    /// is 0.
    fn words(&self) -> [u32; 4]
        ensures { result ≡ words_of self.now }
    {
        match *self {
            Answer::Words(a0, a1, a2, a3) => [a0, a1, a2, a3],
            Answer::Alloc { size, thread } => [RPC_ALLOC, size, 0, u32::from(thread)],
            Answer::Free { cookie, thread } => cookie_words(RPC_FREE, cookie, thread),
            Answer::Cmd { cookie, thread } => cookie_words(RPC_CMD, cookie, thread),
            Answer::Interrupt { thread } => [RPC_INTERRUPT, 0, 0, u32::from(thread)],
        }
    }
}

/// The registers that a caller finds after its call: the answer in a0 to a3, its own a4 to a7.
pub fn encode_answer(answer: &Answer, caller: &Regs) -> Regs
    ensures { result.a ≡ registers_of answer.now caller.now.a }
{
    let mut a = caller.a;
    a[..4].copy_from_slice(&answer.words());
    Regs { a }
}

/// The words of a request about the buffer of `cookie`.
fn cookie_words(request: u32, cookie: u64, thread: u8) -> [u32; 4]
    ensures { result ≡ request ∷ pair cookie (thread ∷ []) }
{
    let upper = (cookie >> 32) as u32;
    let lower = (cookie & 0xffff_ffff) as u32;
    [request, upper, lower, u32::from(thread)]
}
