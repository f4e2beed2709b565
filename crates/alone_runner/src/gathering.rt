//! Playing items whose lines are gathered before they are put.

ghost use Rattle.std.specs.Prelude.{List};
ghost use Rattle.kernel_model.specs.Application.{Native};
ghost use Rattle.trace_text.specs.declared.trace.Trace.{Trace};
ghost use Rattle.word_parts.specs.Faults.{StopTellsFaults};
ghost use Rattle.word_parts.specs.Gathering.{EndsAs, PutsLines, PutsOrKeeps};
ghost use Rattle.alone_runner.specs.Run.{IsToldOf};
ghost use Rattle.trace_player.specs.Starting.{IsAtStart};

use core_machine::machines_stand;
use ports::Sink;
use std::alloc::Global;
use trace_player::Player;
use trace_text::Item;
use word_parts::{Stop, end_at, put_if_many, put_lines};

/// Plays the items of a trace on a player that stands before the first of them, and prints their lines, up to a refused
/// entry, a fault of the sink or want of memory. Lines are gathered, and put when they take 64 KiB or more, behind the
/// last item, and at a refused entry.
pub fn play_items<K: Sink>(
    alloc: Global,
    player: &mut Player,
    items: &[Item],
    out: &mut K,
) -> Result<(), Stop>
    requires { (natives : List Native) × (trace : Trace) × IsAtStart natives trace items.now player.old }
    ensures told { (natives : List Native) (trace : Trace) → IsAtStart natives trace items.now player.old
        → IsToldOf natives trace result (K.held out.old) (K.held out.new) }
    ensures faults { StopTellsFaults result (K.faults out.old) (K.faults out.new) }
{
    machines_stand();
    let mut lines = Vec::new(alloc);
    for item in items {
        if let Err(stop) = player.play_item(alloc, item, &mut lines) {
            return Err(end_at(stop, lines.as_slice(), out));
        }
        put_if_many(&mut lines, out)?;
    }
    put_lines(lines.as_slice(), out)
}
