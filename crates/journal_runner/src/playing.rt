//! Playing a trace of which no line is kept.
ghost use Rattle.std.specs.Prelude.{◌≡◌, List, IfOk};
ghost use Rattle.journal_bytes.specs.Spelling.{spelling};
ghost use Rattle.journal_runner.specs.Recorded.{IsRecordOf, StandsAtEnd};
ghost use Rattle.kernel_model.specs.Application.{Native};
ghost use Rattle.native_tas.specs.Table.{entries};
ghost use Rattle.trace_player.specs.Playing.{terms_in};
ghost use Rattle.trace_player.specs.Starting.{IsAtStart, trace_of, uuids_of};
ghost use Rattle.trace_text.specs.Sound.{IsSound};
ghost use Rattle.trace_text.specs.declared.trace.Trace.{Trace};

use audit::core_journals_are_sound;
use base::NoMemory;
use journal_bytes::write_journal;
use native_tas::Natives;
use std::alloc::Global;
use ta_isa::Boot;
use trace_player::{Player, machines_stand};
use trace_text::{Fill, Item};
use word_parts::{Status, Stop};

/// The bytes of the journal of a play, and the status that the play stands for.
#[derive(Drop)]
pub struct Recorded {
    pub bytes: Vec<u8>,
    pub status: Status,
}

/// Plays the items of a trace on a player that stands before the first of them, up to a refused entry. What they print is let go.
fn play_items(alloc: Global, player: &mut Player, items: &[Item]) -> Result<Status, NoMemory>
    requires { (natives : List Native) × (trace : Trace) × IsAtStart natives trace items.now player.old }
    ensures end { (natives : List Native) (trace : Trace) → IsAtStart natives trace items.now player.old
        → IfOk result (StandsAtEnd natives trace player.new) }
    ensures terms { terms_in player.new ≡ terms_in player.old }
{
    machines_stand();
    let mut lines = Vec::new(alloc);
    for item in items {
        match player.play_item(alloc, item, &mut lines) {
            Ok(()) => lines.clear(),
            Err(Stop::Full) => return Ok(Status::TooLong),
            Err(Stop::Failed) => unreachable!(),
            Err(Stop::Memory) => return Err(NoMemory),
        }
    }
    Ok(Status::Ok)
}

/// Plays the trace of this boot, with these fills and items, and writes down its journal.
pub fn record_play(
    alloc: Global,
    natives: &Natives,
    boot: Boot,
    fills: &[Fill],
    items: &[Item],
) -> Result<Recorded, NoMemory>
    requires { IsSound (uuids_of (entries natives.now)) (trace_of boot fills.now items.now) }
    ensures { IfOk result (IsRecordOf (entries natives.now) (trace_of boot fills.now items.now)) }
{
    let header = boot.clone()?;
    let mut player = Player::booted(alloc, boot, natives, fills)?;
    let status = play_items(alloc, &mut player, items)?;
    core_journals_are_sound();
    let bytes = write_journal(alloc, &header, player.journal())?;
    Ok(Recorded { bytes, status })
}
