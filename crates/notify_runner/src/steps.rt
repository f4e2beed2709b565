//! Playing the steps of a trace, whose lines are gathered before they are put.

ghost use Rattle.std.specs.Prelude.{List};
ghost use Rattle.kernel_model.specs.Application.{Native};
ghost use Rattle.native_tas.specs.Table.{drivers};
ghost use Rattle.notify_text.specs.declared.notify_trace.NotifyTrace.{NotifyTrace};
ghost use Rattle.word_parts.specs.Faults.{StopTellsFaults};
ghost use Rattle.notify_runner.specs.Run.{IsToldOf};
ghost use Rattle.notify_runner.specs.Starting.{IsAtStart};

use native_tas::Natives;
use notif::desks_keep_their_drivers;
use notify_player::NotifyPlayer;
use notify_text::Signal;
use ports::Sink;
use std::alloc::Global;
use trace_player::machines_stand;
use trace_text::Item;
use word_parts::{Stop, end_at, put_if_many, put_lines};

/// Plays the items of a trace with its signals between them, on a player that stands before the first step, and puts what
/// they print, up to a refused entry, a fault of the sink or want of memory. Lines are gathered, and put when they take
/// 64 KiB or more, behind the last item, and at a refused entry.
pub fn play_steps<K: Sink>(
    alloc: Global,
    natives: &Natives,
    player: &mut NotifyPlayer,
    items: &[Item],
    signals: &[Signal],
    out: &mut K,
) -> Result<(), Stop>
    requires { (apps : List Native) × (told : NotifyTrace)
        × IsAtStart apps (drivers natives.now) told items.now signals.now player.old }
    ensures told { (apps : List Native) (told : NotifyTrace)
        → IsAtStart apps (drivers natives.now) told items.now signals.now player.old
        → IsToldOf apps (drivers natives.now) told result (K.held out.old) (K.held out.new) }
    ensures faults { StopTellsFaults result (K.faults out.old) (K.faults out.new) }
{
    machines_stand();
    desks_keep_their_drivers();
    let mut lines = Vec::new(alloc);
    let mut signals = signals;
    for (at, item) in items.iter().enumerate() {
        signals = player.take_signals(at, signals);
        if let Err(stop) = player.play_item(alloc, natives, item, &mut lines) {
            return Err(end_at(stop, lines.as_slice(), out));
        }
        put_if_many(&mut lines, out)?;
    }
    // Signals behind the last item print nothing.
    put_lines(lines.as_slice(), out)
}
