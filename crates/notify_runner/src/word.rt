//! The word `notify`.

ghost use Rattle.native_tas.specs.Table.{drivers, entries};
ghost use Rattle.notify_text.specs.Sound.{IsSoundTold};
ghost use Rattle.trace_player.specs.Starting.{uuids_of};
ghost use Rattle.word_parts.specs.Faults.{StopTellsFaults};
ghost use Rattle.notify_runner.specs.Run.{IsToldOf};

use crate::steps::play_steps;
use native_tas::Natives;
use notify_player::NotifyPlayer;
use notify_text::{NotifyTrace, Trace, read_notify_trace};
use ports::Sink;
use std::alloc::Global;
use trace_text::TraceFault;
use word_parts::{InputWord, Status, Stop, has_too_many, status_of};

/// Plays a trace with signals, and puts its lines, up to a refused entry, a fault of the sink or want of memory.
fn play<K: Sink>(
    alloc: Global,
    natives: &Natives,
    told: NotifyTrace,
    out: &mut K,
) -> Result<(), Stop>
    requires { IsSoundTold (uuids_of (entries natives.now)) told }
    ensures told { IsToldOf (entries natives.now) (drivers natives.now) told result (K.held out.old) (K.held out.new) }
    ensures faults { StopTellsFaults result (K.faults out.old) (K.faults out.new) }
{
    let NotifyTrace { trace, signals } = told;
    let Trace { boot, fills, items } = trace;
    let Some(boot) = boot else {
        return Ok(());
    };
    let Ok(mut player) = NotifyPlayer::counting(alloc, boot, natives, fills.as_slice()) else {
        return Err(Stop::Memory);
    };
    play_steps(
        alloc,
        natives,
        &mut player,
        items.as_slice(),
        signals.as_slice(),
        out,
    )
}

/// The word that reads the text of a trace with signals from the input, plays it on one core beside the applications and the drivers
/// that are built in, and puts what it prints. The drivers of the natives are those that a bottom half calls.
///
/// The input's grammar and then the number of its SMC items are tested, then it is played. Lines are gathered and put 64 KiB at a
/// time, the last of them before the status is answered; those that are not put where memory runs out are lost.
///
/// It shows the play whose text was written: its history is legal and keeps the kernel's own answers, so that what holds of legal
/// histories holds of it, whatever is signalled; it holds the steps in their order, and each printed return is its exit at that
/// place, or what the desk makes of it; and at each place a bottom half calls exactly the drivers that were signalled, while the desk
/// was enabled, since the last bottom half or stop, each with the number of these signals, at most 2^32 - 1.
#[derive(Clone, Copy)]
pub struct Notify;

impl InputWord for Notify {
    ghost use Rattle.notify_runner.specs.Notified.{Notifies};
    ghost use Rattle.notify_runner.specs.Run.{WasRead, notifying};

    type Content = NotifyTrace;

    ghost word = { λ it built. notifying built.natives built.drivers };

    ghost Shows = { λ it built input call. Notifies built.natives built.drivers input call.result call.old call.new };

    ghost IsRead = { λ it built input told. WasRead built.natives input told };

    fn laws(self) {}

    fn read(
        self,
        alloc: Global,
        input: &[u8],
        natives: &Natives,
    ) -> Result<NotifyTrace, TraceFault> {
        read_notify_trace(alloc, input, natives.uuids().as_slice())
    }

    fn serve<K: Sink>(
        self,
        alloc: Global,
        told: NotifyTrace,
        out: &mut K,
        natives: &Natives,
    ) -> Status {
        if has_too_many(told.trace.items.as_slice()) {
            return Status::TooLong;
        }
        status_of(play(alloc, natives, told, out))
    }
}
