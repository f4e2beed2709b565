//! What an exit asks of the desk.

ghost use Rattle.std.specs.Prelude.{◌≡◌, length};
ghost use Rattle.kernel_model.specs.Argument.{IsNew};
ghost use Rattle.msg_args.specs.Reading.{head_at};
ghost use Rattle.notify_play.specs.Duty.{came_with, duty_of, duty_of_command, duty_of_head, duty_of_new};
ghost use Rattle.desk_answers.specs.Duties.{HasHeadFirst, duty_in};

use msg_args::{OPTEE_MSG_CMD_DO_BOTTOM_HALF, OPTEE_MSG_CMD_STOP_ASYNC_NOTIF, read_head};
use ns_ram::Read;
use smc_abi::{Call, EBADCMD, FastCall, Regs, decode_call};

/// `OPTEE_SMC_ENABLE_ASYNC_NOTIF`.
const ENABLE_ASYNC_NOTIF: u32 = 0xb200_0010;

/// `OPTEE_SMC_GET_ASYNC_NOTIF_VALUE`.
const GET_ASYNC_NOTIF_VALUE: u32 = 0xb200_0011;

/// What an exit asks of a desk of signals.
#[derive(Clone, Copy)]
pub enum Duty {
    /// Nothing: the kernel's answer is told.
    Nothing,
    /// To tell the first pending value.
    TellsValue,
    /// To let signals count.
    Enables,
    /// To say that there are notifications.
    Offers,
    /// To call the drivers, and to leave the answer in the argument at this address.
    RunsBottomHalf { arg: u64 },
    /// To stop, and to say so in the argument at this address.
    Stops { arg: u64 },
}

/// The duty of a command that the kernel doesn't know, with its argument at this address.
fn duty_of_command(arg: u64, cmd: u32) -> Duty
    ensures { duty_in result ≡ duty_of_command arg cmd }
{
    match cmd {
        OPTEE_MSG_CMD_DO_BOTTOM_HALF => Duty::RunsBottomHalf { arg },
        OPTEE_MSG_CMD_STOP_ASYNC_NOTIF => Duty::Stops { arg },
        _ => Duty::Nothing,
    }
}

/// The command in the 32 bytes of a head.
fn command_in(bytes: &[u8]) -> u32
    requires { length bytes.now ≡ 32 }
    ensures { result ≡ (head_at bytes.now).cmd }
{
    let mut head = [0; 32];
    head.copy_from_slice(bytes);
    read_head(&head).cmd
}

/// The duty of a new call with a command that the kernel doesn't know. Its entry read the head of its argument.
fn duty_of_head(reads: &[Read]) -> Duty
    requires { HasHeadFirst reads.now }
    ensures { duty_in result ≡ duty_of_head reads.now }
{
    match reads {
        [head, ..] => duty_of_command(head.addr, command_in(head.bytes.as_slice())),
        [] => Duty::Nothing,
    }
}

/// The duty of a new call to which the kernel says this in a0.
fn duty_of_new(reads: &[Read], a0: u32) -> Duty
    requires { HasHeadFirst reads.now }
    ensures { duty_in result ≡ duty_of_new reads.now a0 }
{
    if a0 == EBADCMD {
        duty_of_head(reads)
    } else {
        Duty::Nothing
    }
}

/// What an exit asks whose processor came in with these registers and read this, and to which the kernel says this in a0.
/// Two function ids are the desk's own. A new call's first read is the head of its argument.
pub fn duty_of(regs: &Regs, reads: &[Read], a0: u32) -> Duty
    requires { IsNew regs.now.a → HasHeadFirst reads.now }
    ensures { duty_in result ≡ duty_of (came_with regs.now.a reads.now) a0 }
{
    match regs.a[0] {
        ENABLE_ASYNC_NOTIF => return Duty::Enables,
        GET_ASYNC_NOTIF_VALUE => return Duty::TellsValue,
        _ => {}
    }
    match decode_call(regs) {
        Call::Fast(FastCall::Capabilities) => Duty::Offers,
        Call::WithArg | Call::WithRpcArg | Call::WithRegdArg => duty_of_new(reads, a0),
        Call::Fast(_) | Call::Resume | Call::Unknown => Duty::Nothing,
    }
}
