//! Playing a trace by the one player, for what stands in the journal of its core.
ghost use Rattle.std.specs.Prelude.{◌≡◌, ◌≤◌, ◌^◌, IfOk, List, OnOk, Some, map};
ghost use Rattle.std.specs.List.{AllByRecursion};
ghost use Rattle.core_cases.specs.Playing.{HasItsBoot};
ghost use Rattle.event_journal.specs.Journal.{copied_bytes};
ghost use Rattle.kernel_model.specs.Application.{Native};
ghost use Rattle.kernel_model.specs.History.{IsLegal};
ghost use Rattle.kernel_state.specs.Meaning.{booted_of};
ghost use Rattle.kernel_state.specs.Reads.{ReadsAgree};
ghost use Rattle.kernel_state.specs.Terms.{kept_terms};
ghost use Rattle.native_tas.specs.Table.{entries};
ghost use Rattle.trace_player.specs.Playing.{history_of, terms_in};
ghost use Rattle.trace_player.specs.Starting.{IsAtStart};
ghost use Rattle.trace_text.specs.Grammar.{Spells};
ghost use Rattle.trace_text.specs.Sound.{IsSound};
ghost use Rattle.trace_text.specs.declared.trace.Trace.{Trace as AnyTrace};

use crate::reading::trace_of;
use anyhow::{Result, bail};
use core_machine::machines_stand;
use event_journal::Journal;
use native_tas::Natives;
use std::alloc::Global;
use ta_isa::Boot;
use trace_player::Player;
use trace_text::{Item, Trace};
use word_parts::Stop;

/// The boot of a trace, read once more from its text, since a player takes its boot.
pub(crate) fn boot_again(
    alloc: Global,
    natives: &Natives,
    text: &[u8],
    trace: &Trace,
) -> Result<Boot>
    requires { Spells (map (λ native. native.0) (entries natives.now)) text.now trace.now }
    ensures { IfOk result (λ boot. trace.now.boot ≡ Some boot) }
{
    let Trace { boot, .. } = trace_of(alloc, natives, text)?;
    let Some(boot) = boot else {
        bail!("a case without a boot");
    };
    Ok(boot)
}

/// Plays the items of a trace on a player that stands before the first of them. What they print is let go.
fn play_items(alloc: Global, player: &mut Player, items: &[Item]) -> Result<()>
    requires { (natives : List Native) × (trace : AnyTrace) × IsAtStart natives trace items.now player.old }
    ensures boot { (natives : List Native) (trace : AnyTrace) → IsAtStart natives trace items.now player.old
        → OnOk result (HasItsBoot natives trace player.new) }
    ensures terms { terms_in player.new ≡ terms_in player.old }
{
    machines_stand();
    let mut lines = Vec::new(alloc);
    for item in items {
        match player.play_item(alloc, item, &mut lines) {
            Ok(()) => {}
            Err(Stop::Full) => bail!("an entry was refused"),
            Err(Stop::Failed) => unreachable!(),
            Err(Stop::Memory) => bail!("out of memory"),
        }
    }
    Ok(())
}

/// A player that has played all items of a trace.
pub(crate) fn played(alloc: Global, natives: &Natives, trace: Trace) -> Result<Player>
    requires { IsSound (map (λ native. native.0) (entries natives.now)) trace }
    ensures boot { IfOk result (HasItsBoot (entries natives.now) trace) }
    ensures terms { IfOk result (λ player. terms_in player ≡ kept_terms) }
{
    let Trace { boot, fills, items } = trace;
    let Some(boot) = boot else {
        bail!("a case without a boot");
    };
    let mut player = Player::booted(alloc, boot, natives, fills.as_slice())?;
    play_items(alloc, &mut player, items.as_slice())?;
    Ok(player)
}

/// The journal of a player whose core keeps its events.
pub(crate) fn journal_of(player: &Player) -> &Journal
    requires { terms_in player.now ≡ kept_terms }
    ensures events { result.now.events ≡ history_of player.now }
    ensures legal { IsLegal (booted_of player.now.machine.at_work.core) (history_of player.now) }
    ensures few { copied_bytes (history_of player.now) ≤ 2 ^ 28 }
    ensures agree { AllByRecursion ReadsAgree (history_of player.now) }
{
    player.machine().core().journal()
}
