//! What a processor is told at its exit.

ghost use Rattle.std.specs.Prelude.{◌≡◌};
ghost use Rattle.native_tas.specs.Table.{drivers};
ghost use Rattle.notif.specs.Desk.{IsDeskOf, first_noted};
ghost use Rattle.notify_play.specs.Told.{told_regs, told_writes, value_answer, with_capability, with_highest_value};
ghost use Rattle.smc_abi.specs.Answer.{registers_of};
ghost use Rattle.desk_answers.specs.Duties.{after_duty, duty_in, writes_of};

use crate::duty::Duty;
use native_tas::Natives;
use notif::{Desk, Noted};
use smc_abi::{Answer, OK, Regs, encode_answer};

/// `OPTEE_SMC_SEC_CAP_ASYNC_NOTIF`.
const ASYNC_NOTIF: u32 = 1 << 5;

/// The greatest value of a signal.
const HIGHEST_VALUE: u32 = 63;

/// The result that goes into an argument, from `TEE_ORIGIN_TEE`.
#[derive(Clone, Copy)]
pub struct ResultIn {
    /// The address of the argument.
    pub arg: u64,
    pub ret: u32,
}

/// What a processor is told as it goes out, and what is written before.
#[derive(Clone, Copy)]
pub struct Told {
    pub regs: Regs,
    pub result: Option<ResultIn>,
}

/// The answer that tells a value, or that there is none.
fn value_answer(noted: Option<Noted>) -> Answer
    ensures { result ≡ value_answer noted }
{
    match noted {
        Some(Noted { value, more: false }) => Answer::Words(OK, value, 1, 0),
        Some(Noted { value, more: true }) => Answer::Words(OK, value, 3, 0),
        None => Answer::Words(OK, 0, 0, 0),
    }
}

/// The kernel's capabilities with notifications besides.
fn with_notifications(answered: Regs) -> Regs
    ensures { result.a ≡ with_highest_value (with_capability answered.a) }
{
    let mut regs = answered;
    regs.a[1] |= ASYNC_NOTIF;
    if regs.a[0] == OK {
        regs.a[2] = HIGHEST_VALUE;
    }
    regs
}

/// OK, and nothing else.
fn ok_regs(caller: &Regs) -> Regs
    ensures { result.a ≡ registers_of (Answer.Words 0 0 0 0) caller.now.a }
{
    encode_answer(&Answer::Words(OK, 0, 0, 0), caller)
}

/// Does what an exit asks of the desk, where the caller came in with these registers and the kernel answered those. The
/// natives are those of the desk.
pub fn answer(desk: &mut Desk, natives: &Natives, caller: &Regs, answered: Regs, duty: Duty) -> Told
    requires { IsDeskOf (drivers natives.now) desk.old }
    ensures regs { result.regs.a ≡ told_regs desk.old caller.now.a answered.a (duty_in duty) }
    ensures writes { writes_of result.result ≡ told_writes (drivers natives.now) desk.old (duty_in duty) }
    ensures desk { desk.new ≡ after_duty desk.old duty }
{
    match duty {
        Duty::Nothing => Told {
            regs: answered,
            result: None,
        },
        Duty::TellsValue => Told {
            regs: encode_answer(&value_answer(desk.next()), caller),
            result: None,
        },
        Duty::Enables => {
            desk.enable();
            Told {
                regs: ok_regs(caller),
                result: None,
            }
        }
        Duty::Offers => Told {
            regs: with_notifications(answered),
            result: None,
        },
        Duty::RunsBottomHalf { arg } => {
            let ret = desk.bottom_half(natives);
            Told {
                regs: ok_regs(caller),
                result: Some(ResultIn { arg, ret }),
            }
        }
        Duty::Stops { arg } => {
            desk.stop();
            Told {
                regs: ok_regs(caller),
                result: Some(ResultIn { arg, ret: 0 }),
            }
        }
    }
}
