//! Playing a trace of which no line is kept: each goes into a digest and the counts of answers.

ghost use Rattle.std.specs.Prelude.{◌≡◌, ◌+◌, ◌^◌, ℕ, List, Err, IfOk, IsSome, OnOk};
ghost use Rattle.kernel_model.specs.Application.{Booted, Native};
ghost use Rattle.native_tas.specs.Table.{entries};
ghost use Rattle.play_model.specs.Play.{Play, after_item};
ghost use Rattle.trace_text.specs.Sound.{IsSound};
ghost use Rattle.trace_text.specs.declared.trace.Trace.{Trace};
ghost use Rattle.trace_player.specs.Playing.{CanTake, Follows, IsPlayedTo, history_of};
ghost use Rattle.trace_player.specs.Refused.{refused_in};
ghost use Rattle.trace_player.specs.Starting.{IsAtStart, uuids_of};
ghost use Rattle.alone_runner.specs.Counts.{AreBelow, AreCounts};
ghost use Rattle.alone_runner.specs.Digesting.{IsDigested};

use crate::summary::AnswerCounts;
use core_machine::machines_stand;
use native_tas::Natives;
use sha2::{Digest, Sha256};
use std::alloc::Global;
use trace_player::Player;
use trace_text::{Item, Trace};
use word_parts::Stop;

/// What is known of a play at its end: how many answers were of each kind, and the SHA-256 of the lines that were printed.
#[derive(Clone, Copy)]
pub struct Digested {
    pub counts: AnswerCounts,
    pub digest: [u8; 32],
}

/// Plays an item, as `Player::play_item` does, and counts the answer that its processor is told, where one goes out by it.
fn play_and_count(
    alloc: Global,
    player: &mut Player,
    item: &Item,
    counts: &mut AnswerCounts,
    lines: &mut Vec<u8>,
) -> Result<(), Stop>
    requires can { CanTake player.old item.now }
    requires room { AreBelow (2 ^ 63) counts.old }
    ensures follows { (boot : Booted) (play : Play) → IsPlayedTo boot play player.old
        → Follows boot play (after_item boot item.now play) result player.new lines.old.items lines.new.items }
    ensures counts { (boot : Booted) (play : Play) → IsPlayedTo boot play player.old → AreCounts play.history counts.old
        → OnOk result (AreCounts (history_of player.new) counts.new) }
    ensures few { (bound : ℕ) → AreBelow bound counts.old → AreBelow (bound + 1) counts.new }
    ensures never_fails { result ≡ Err Stop.Failed → ⊥ }
{
    match player.begin_item(alloc, item, lines)? {
        Some(exit) => {
            counts.add(exit.answer.regs.a[0]);
            player.tell(exit.answer.cpu, exit.answer.regs, lines)
        }
        None => Ok(()),
    }
}

/// Plays the items of a trace on a player that stands before the first of them, up to a refused entry or want of memory, and
/// gives the counts of all answers and the SHA-256 of the lines that they print.
fn digest_items(alloc: Global, player: &mut Player, items: &[Item]) -> Result<Digested, Stop>
    requires { (natives : List Native) × (trace : Trace) × IsAtStart natives trace items.now player.old }
    ensures told { IfOk result (λ digested. (natives : List Native) (trace : Trace)
        → IsAtStart natives trace items.now player.old → IsDigested natives trace digested) }
    ensures full { result ≡ Err Stop.Full → (natives : List Native) (trace : Trace)
        → IsAtStart natives trace items.now player.old → IsSome (refused_in natives trace) }
    ensures failed { result ≡ Err Stop.Failed → ⊥ }
{
    machines_stand();
    let mut lines = Vec::new(alloc);
    let mut hasher = Sha256::new();
    let mut counts = AnswerCounts::none();
    for item in items {
        play_and_count(alloc, player, item, &mut counts, &mut lines)?;
        hasher.update(lines.as_slice());
        lines.clear();
    }
    Ok(Digested {
        counts,
        digest: hasher.finalize(),
    })
}

/// Plays a trace that has a boot, up to a refused entry or want of memory.
pub fn digest_play(alloc: Global, natives: &Natives, trace: Trace) -> Result<Digested, Stop>
    requires sound { IsSound (uuids_of (entries natives.now)) trace }
    requires boots { IsSome trace.boot }
    ensures told { IfOk result (IsDigested (entries natives.now) trace) }
    ensures full { result ≡ Err Stop.Full → IsSome (refused_in (entries natives.now) trace) }
    ensures failed { result ≡ Err Stop.Failed → ⊥ }
{
    let Trace { boot, fills, items } = trace;
    let Some(boot) = boot else { unreachable!() };
    let Ok(mut player) = Player::counting(alloc, boot, natives, fills.as_slice()) else {
        return Err(Stop::Memory);
    };
    digest_items(alloc, &mut player, items.as_slice())
}
