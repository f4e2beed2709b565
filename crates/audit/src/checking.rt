//! Checking a journal.
ghost use Rattle.std.specs.Prelude.{◌≤◌, ◌^◌, IfOk};
ghost use Rattle.audit_model.specs.Verdicts.{IsVerdict};
ghost use Rattle.event_journal.specs.Journal.{copied_bytes};
ghost use Rattle.journal_replay.specs.Booting.{IsApart};
ghost use Rattle.kernel_model.specs.Application.{booted};
ghost use Rattle.kernel_state.specs.Booting.{IsWithinLimits};
ghost use Rattle.native_tas.specs.Table.{entries};

use audit_model::Verdict;
use base::NoMemory;
use event_journal::Journal;
use journal_replay::Replay;
use native_tas::Natives;
use std::alloc::Global;
use ta_isa::Boot;

/// Whether these events begin a legal and steady history of a core of this boot, beside the applications that are built in; or
/// which of them, counted from 0, is the first with which none begins. The boot keeps the limits of [`kernel_state::Core::boot`]
/// and no UUID stands twice, those of built-in applications among them; the events have copied at most 2^28 bytes. Nothing
/// else is asked of them. `NoMemory` where memory is wanting.
pub fn check(
    alloc: Global,
    boot: &Boot,
    natives: &Natives,
    journal: &Journal,
) -> Result<Verdict, NoMemory>
    requires limits { IsWithinLimits boot.now }
    requires apart { IsApart boot.now (entries natives.now) }
    requires few { copied_bytes journal.now.events ≤ 2 ^ 28 }
    ensures { IfOk result (IsVerdict (booted boot.now (entries natives.now)) journal.now.events) }
{
    let mut replay = Replay::new(alloc, boot, natives)?;
    let events = journal.as_slice();
    for (at, event) in events.iter().enumerate() {
        let can_be = replay.redo(alloc, event)?;
        if !can_be {
            return Ok(Verdict::Illegal(at as u64));
        }
    }
    Ok(Verdict::Legal)
}
