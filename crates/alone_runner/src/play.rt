//! Playing a trace: its boot, its fills, and then its items in their order.
ghost use Rattle.native_tas.specs.Table.{entries};
ghost use Rattle.trace_player.specs.Starting.{uuids_of};
ghost use Rattle.trace_text.specs.Sound.{IsSound};
ghost use Rattle.word_parts.specs.Faults.{StopTellsFaults};
ghost use Rattle.alone_runner.specs.Run.{IsToldOf};

use crate::at_end::AtEnd;
use crate::gathering::play_items;
use native_tas::Natives;
use ports::Sink;
use std::alloc::Global;
use trace_player::Player;
use trace_text::Trace;
use word_parts::Stop;

/// Plays a trace and prints its lines, up to a refused entry, a fault of the sink or want of memory.
pub fn play<K: Sink>(
    alloc: Global,
    natives: &Natives,
    trace: Trace,
    out: &mut K,
    at_end: AtEnd,
) -> Result<(), Stop>
    requires { IsSound (uuids_of (entries natives.now)) trace }
    ensures told { IsToldOf (entries natives.now) trace result (K.held out.old) (K.held out.new) }
    ensures faults { StopTellsFaults result (K.faults out.old) (K.faults out.new) }
{
    let Trace { boot, fills, items } = trace;
    let Some(boot) = boot else {
        return Ok(());
    };
    let Ok(mut player) = Player::counting(alloc, boot, natives, fills.as_slice()) else {
        return Err(Stop::Memory);
    };
    let played = play_items(alloc, &mut player, items.as_slice(), out);
    at_end.end_with(player);
    at_end.end_with(items);
    played
}
