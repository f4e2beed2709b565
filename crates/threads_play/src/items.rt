//! A processor takes the items of a trace that are its own, in their order.
ghost use Rattle.std.specs.Prelude.{◌≡◌, ◌≤◌, ◌++◌, ◌∷◌, ℕ, [], false, All, List};
ghost use Rattle.std.specs.Option.{is_some};
ghost use Rattle.core_lock.specs.Passes.{number};
ghost use Rattle.normal_cpus.specs.Sharing.{boot_of};
ghost use Rattle.ordered_play.specs.Act.{Act, Comes, Leaves, acts_for, acts_of, cpu_of_item};
ghost use Rattle.trace_text.specs.Sound.{IsSoundReg};
ghost use Rattle.trace_text.specs.declared.item.Item.{Item};
ghost use Rattle.threads_play.specs.InTurn.{AreInTurn, StaysInTurn};
ghost use Rattle.threads_play.specs.Standing.{GoesOn, HasComeTo, IsOn, LeadsTo};

use crate::player::CpuPlayer;
use kernel_state::EnterRefusal;
use normal_cpus::SharedCore;
use ports::Pace;
use std::alloc::Global;
use std::sync::Wait;
use trace_text::{Item, Reg};

/// The processor of an item.
fn cpu_of(item: &Item) -> u8
    ensures { result ≡ cpu_of_item item.now }
{
    match item {
        Item::Smc { cpu, .. }
        | Item::Enter { cpu, .. }
        | Item::Leave { cpu }
        | Item::Write { cpu, .. }
        | Item::Show { cpu, .. } => *cpu,
    }
}

impl CpuPlayer {
    /// It comes in and goes out.
    fn call(
        &mut self,
        rt: &impl Wait,
        alloc: Global,
        shared: &SharedCore,
        pace: &impl Pace,
        steps: u32,
        regs: &[Reg; 8],
    ) -> Result<(), EnterRefusal>
        requires on { IsOn shared.now self.old }
        requires outside { is_some self.old.work ≡ false }
        requires steps { (1 ≤ steps) × (steps ≤ 1000000) }
        requires sound { All IsSoundReg regs.now }
        ensures on { GoesOn shared.now self.old self.new }
        ensures outside { is_some self.new.work ≡ false }
        ensures calls { (items : List Item) (lane : List ℕ) (acts : List Act)
            → HasComeTo (boot_of shared.now) items lane (Comes steps regs.now ∷ Leaves ∷ acts) self.old
            → LeadsTo (boot_of shared.now) items lane acts self.new result }
    {
        self.enter(rt, alloc, shared, steps, regs)?;
        self.leave(rt, shared, pace)
    }

    /// It does an item, which is its own.
    fn play_item(
        &mut self,
        rt: &impl Wait,
        alloc: Global,
        shared: &SharedCore,
        pace: &impl Pace,
        item: &Item,
    ) -> Result<(), EnterRefusal>
        requires on { IsOn shared.now self.old }
        requires turn { (acts : List Act) × AreInTurn (is_some self.old.work) (acts_of item.now ++ acts) }
        ensures on { GoesOn shared.now self.old self.new }
        ensures turn { (acts : List Act) → AreInTurn (is_some self.old.work) (acts_of item.now ++ acts)
            → StaysInTurn acts self.new result }
        ensures plays { (items : List Item) (lane : List ℕ) (acts : List Act)
            → HasComeTo (boot_of shared.now) items lane (acts_of item.now ++ acts) self.old
            → LeadsTo (boot_of shared.now) items lane acts self.new result }
    {
        match item {
            Item::Smc { steps, regs, .. } => self.call(rt, alloc, shared, pace, *steps, regs),
            Item::Enter { steps, regs, .. } => self.enter(rt, alloc, shared, *steps, regs),
            Item::Leave { .. } => self.leave(rt, shared, pace),
            Item::Write { addr, bytes, .. } => {
                self.write(*addr, bytes.as_slice());
                Ok(())
            }
            Item::Show { addr, len, .. } => match self.show(alloc, *addr, *len) {
                Ok(()) => Ok(()),
                Err(_) => Err(EnterRefusal::Memory),
            },
        }
    }

    /// It does an item if that is its own.
    fn take_item(
        &mut self,
        rt: &impl Wait,
        alloc: Global,
        shared: &SharedCore,
        pace: &impl Pace,
        item: &Item,
    ) -> Result<(), EnterRefusal>
        requires on { IsOn shared.now self.old }
        requires turn { (items : List Item)
            × AreInTurn (is_some self.old.work) (acts_for (number self.old.pass) (item.now ∷ items)) }
        ensures on { GoesOn shared.now self.old self.new }
        ensures turn { (items : List Item)
            → AreInTurn (is_some self.old.work) (acts_for (number self.old.pass) (item.now ∷ items))
            → StaysInTurn (acts_for (number self.old.pass) items) self.new result }
        ensures takes { (all : List Item) (lane : List ℕ) (items : List Item)
            → HasComeTo (boot_of shared.now) all lane (acts_for (number self.old.pass) (item.now ∷ items)) self.old
            → LeadsTo (boot_of shared.now) all lane (acts_for (number self.old.pass) items) self.new result }
    {
        if cpu_of(item) != self.cpu() {
            return Ok(());
        }
        self.play_item(rt, alloc, shared, pace, item)
    }

    /// It does its items, one after the other, up to a refused entry or want of memory.
    pub fn take_items(
        &mut self,
        rt: &impl Wait,
        alloc: Global,
        shared: &SharedCore,
        pace: &impl Pace,
        items: &[Item],
    ) -> Result<(), EnterRefusal>
        requires on { IsOn shared.now self.old }
        requires turn { AreInTurn (is_some self.old.work) (acts_for (number self.old.pass) items.now) }
        ensures on { GoesOn shared.now self.old self.new }
        ensures turn { StaysInTurn [] self.new result }
        ensures takes { (all : List Item) (lane : List ℕ)
            → HasComeTo (boot_of shared.now) all lane (acts_for (number self.old.pass) items.now) self.old
            → LeadsTo (boot_of shared.now) all lane [] self.new result }
    {
        for item in items {
            self.take_item(rt, alloc, shared, pace, item)?;
        }
        Ok(())
    }
}
