//! One processor's work, from its first item to its last.
ghost use Rattle.std.specs.Prelude.{◌≡◌, ℕ, [], false, Err, List};
ghost use Rattle.std.specs.Option.{is_some};
ghost use mathlib.Core.List.{IsPrefix};
ghost use Rattle.core_lock.specs.Passes.{made, number, seen};
ghost use Rattle.kernel_model.specs.Application.{Booted};
ghost use Rattle.normal_cpus.specs.Sharing.{IsCpuOf, boot_of, is_inside};
ghost use Rattle.ordered_play.specs.Act.{acts_for};
ghost use Rattle.ordered_play.specs.Merge.{role_of, share_of};
ghost use Rattle.trace_text.specs.declared.item.Item.{Item};
ghost use Rattle.threads_play.specs.Ending.{EndsAs, end_of};
ghost use Rattle.threads_play.specs.InTurn.{AreInTurn, StaysInTurn};
ghost use Rattle.threads_play.specs.Standing.{GoesOn, IsNew, IsOn, IsRefused, LeadsTo, share_in};

use crate::ending::CpuEnd;
use crate::lines::{push_full, push_head};
use crate::player::CpuPlayer;
use kernel_state::EnterRefusal;
use normal_cpus::{CpuPass, SharedCore};
use ns_ram::Lane;
use ports::Pace;
use smc_abi::Regs;
use std::alloc::Global;
use std::sync::Wait;
use trace_text::Item;

impl CpuPlayer {
    /// It has done nothing, and printed nothing. Takes no memory.
    fn new(alloc: Global, pass: CpuPass, lane: Lane) -> CpuPlayer
        ensures pass { result.pass ≡ pass }
        ensures starts { IsNew lane result }
    {
        CpuPlayer {
            pass,
            lane,
            answer: Regs { a: [0; 8] },
            work: None,
            calls: 0,
            block: Vec::new(alloc),
        }
    }

    /// If it is inside, it does the rest of that call. Takes no memory.
    fn finish(&mut self, rt: &impl Wait, shared: &SharedCore, pace: &impl Pace)
        requires on { IsOn shared.now self.old }
        ensures on { GoesOn shared.now self.old self.new }
        ensures outside { is_some self.new.work ≡ false }
    {
        if self.work.is_none() {
            return;
        }
        self.go_out(rt, shared, pace);
    }

    /// The line of its refused entry is printed.
    fn tell_full(&mut self, copied: u64, more: u64) -> Result<(), EnterRefusal>
        ensures pass { self.new.pass ≡ self.old.pass }
        ensures work { self.new.work ≡ self.old.work }
        ensures tells { (boot : Booted) (items : List Item) (lane : List ℕ)
            → IsRefused (role_of (share_in boot self.old) items lane) copied more self.old
            → EndsAs (role_of (share_in boot self.new) items lane) (end_of self.new result) result }
    {
        match push_full(&mut self.block, copied, more) {
            Ok(()) => Err(EnterRefusal::Full { copied, more }),
            Err(_) => Err(EnterRefusal::Memory),
        }
    }

    /// Its items have not all been done: a refused entry is told, and where it is inside with no memory for a line, the rest of
    /// that call is done.
    fn end_early(
        &mut self,
        rt: &impl Wait,
        shared: &SharedCore,
        pace: &impl Pace,
        why: EnterRefusal,
    ) -> Result<(), EnterRefusal>
        requires on { IsOn shared.now self.old }
        requires turn { StaysInTurn [] self.old (Err why) }
        ensures on { GoesOn shared.now self.old self.new }
        ensures outside { is_some self.new.work ≡ false }
        ensures ends { (items : List Item) (lane : List ℕ)
            → LeadsTo (boot_of shared.now) items lane [] self.old (Err why)
            → EndsAs (role_of (share_in (boot_of shared.now) self.new) items lane) (end_of self.new result) result }
    {
        match why {
            EnterRefusal::Full { copied, more } => self.tell_full(copied, more),
            EnterRefusal::Memory => {
                self.finish(rt, shared, pace);
                Err(EnterRefusal::Memory)
            }
        }
    }

    /// Its items have ended so.
    fn end(
        &mut self,
        rt: &impl Wait,
        shared: &SharedCore,
        pace: &impl Pace,
        outcome: Result<(), EnterRefusal>,
    ) -> Result<(), EnterRefusal>
        requires on { IsOn shared.now self.old }
        requires turn { StaysInTurn [] self.old outcome }
        ensures on { GoesOn shared.now self.old self.new }
        ensures outside { is_some self.new.work ≡ false }
        ensures ends { (items : List Item) (lane : List ℕ) → LeadsTo (boot_of shared.now) items lane [] self.old outcome
            → EndsAs (role_of (share_in (boot_of shared.now) self.new) items lane) (end_of self.new result) result }
    {
        match outcome {
            Ok(()) => Ok(()),
            Err(why) => self.end_early(rt, shared, pace, why),
        }
    }

    /// It does its items, and prints its block.
    fn play(
        &mut self,
        rt: &impl Wait,
        alloc: Global,
        shared: &SharedCore,
        pace: &impl Pace,
        items: &[Item],
    ) -> Result<(), EnterRefusal>
        requires on { IsOn shared.now self.old }
        requires starts { (lane : List ℕ) × IsNew lane self.old }
        requires unused { made self.old.pass ≡ [] }
        requires turn { AreInTurn false (acts_for (number self.old.pass) items.now) }
        ensures on { GoesOn shared.now self.old self.new }
        ensures outside { is_some self.new.work ≡ false }
        ensures ends { (lane : List ℕ) → IsNew lane self.old
            → EndsAs (role_of (share_in (boot_of shared.now) self.new) items.now lane) (end_of self.new result) result }
    {
        let cpu = self.cpu();
        match push_head(&mut self.block, cpu) {
            Ok(()) => {
                let outcome = self.take_items(rt, alloc, shared, pace, items);
                self.end(rt, shared, pace, outcome)
            }
            Err(_) => Err(EnterRefusal::Memory),
        }
    }

    /// What it gives back. Takes no memory.
    fn into_end(self, outcome: Result<(), EnterRefusal>) -> CpuEnd
        ensures { result ≡ end_of self outcome }
    {
        let CpuPlayer {
            pass,
            lane,
            answer: _,
            work: _,
            calls: _,
            block,
        } = self;
        CpuEnd {
            pass,
            lane,
            block,
            outcome,
        }
    }
}

/// Plays a processor's own items of a trace on a shared core, where it has done nothing yet and sees this RAM, and gives back its
/// pass, its RAM and its block. It stops at an entry that is refused since all entries would then have read more than 2^28 bytes,
/// and where there is no memory; what was begun is then ended first.
///
/// Between the entry and the exit of each call, under no turn, the granted steps are done, and then the pace is called with the
/// number of the call, from 1.
///
/// It may wait for its turns.
pub fn play_cpu(
    rt: &impl Wait,
    alloc: Global,
    shared: &SharedCore,
    pass: CpuPass,
    lane: Lane,
    items: &[Item],
    pace: &impl Pace,
) -> CpuEnd
    requires own { IsCpuOf shared.now pass }
    requires unused { made pass ≡ [] }
    requires turn { AreInTurn false (acts_for (number pass) items.now) }
    ensures own { IsCpuOf shared.now result.pass }
    ensures same { number result.pass ≡ number pass }
    ensures outside { is_inside result.pass ≡ false }
    ensures begins { IsPrefix (seen pass) (seen result.pass) }
    ensures ends { EndsAs (role_of (share_of (boot_of shared.now) (seen result.pass) (number pass)) items.now lane) result result.outcome }
{
    let mut player = CpuPlayer::new(alloc, pass, lane);
    let outcome = player.play(rt, alloc, shared, pace, items);
    player.into_end(outcome)
}
