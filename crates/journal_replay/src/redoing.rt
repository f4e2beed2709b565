//! What is done with a replay: events, one after the other.
ghost use Rattle.std.specs.Prelude.{◌≡◌, ◌↔◌, ◌≤◌, ◌^◌, ℕ, List, [], ◌∷◌, ◌++◌, IfOk, IsTrue, Ok};
ghost use Rattle.core_at_work.specs.Booting.{IsApart};
ghost use Rattle.core_at_work.specs.Working.{HasComeIn, SameOutgoing};
ghost use Rattle.event_journal.specs.Journal.{copied_bytes};
ghost use Rattle.event_journal.specs.declared.event.Event.TheVariants.{Entry, Exit};
ghost use Rattle.journal_replay.specs.Laying.{AreOfOneRam};
ghost use Rattle.journal_replay.specs.Replaying.{Does, HasDone, PreparesNext, boot_of, done_by};
ghost use Rattle.core_at_work.specs.Entering.{HasMoreRoom, IsPrepared, WasPrepared};
ghost use Rattle.core_at_work.specs.Visiting.{coming_of};
ghost use Rattle.kernel_model.specs.Application.{booted};
ghost use Rattle.kernel_state.specs.Booting.{IsWithinLimits};
ghost use Rattle.kernel_state.specs.Entering.{CanEnter};
ghost use Rattle.native_tas.specs.Table.{entries};
ghost use Rattle.ns_ram.specs.Reads.{HoldsReads};

use crate::comparing::{are_same_reads, are_same_regs};
use crate::laying::lay;
use crate::replay::Replay;
use base::NoMemory;
use core_at_work::{CoreAtWork, Prepared, Visitor};
use event_journal::Event;
use kernel_state::EnterRefusal;
use native_tas::Natives;
use ns_ram::{Lane, Read};
use smc_abi::Regs;
use std::alloc::Global;
use ta_isa::Boot;

impl Replay {
    /// A core of this boot, where nothing has happened.
    pub fn new(alloc: Global, boot: &Boot, natives: &Natives) -> Result<Replay, NoMemory>
        requires limits { IsWithinLimits boot.now }
        requires apart { IsApart boot.now (entries natives.now) }
        ensures booted { IfOk result (λ replay. boot_of replay ≡ booted boot.now (entries natives.now)) }
        ensures fresh { IfOk result (λ replay. done_by replay ≡ []) }
    {
        let lane = Lane::new(alloc)?;
        let at_work = CoreAtWork::booted(alloc, boot.clone()?, natives)?;
        Ok(Replay { at_work, lane })
    }

    /// Does an event again, and tells whether it can have come next. After one that can't, and after want of memory, the replay
    /// is of no further use.
    pub fn redo(&mut self, alloc: Global, event: &Event) -> Result<bool, NoMemory>
        requires { copied_bytes (done_by self.old ++ event.now ∷ []) ≤ 2 ^ 28 }
        ensures { Does self.old self.new event.now result }
    {
        match event {
            Event::Entry {
                cpu,
                regs,
                steps,
                reads,
            } => {
                let visitor = Visitor {
                    cpu: *cpu,
                    regs: *regs,
                    steps: *steps,
                };
                self.come_in(alloc, visitor, reads.as_slice())
            }
            Event::Exit { cpu, regs } => Ok(self.go_out(*cpu, regs)),
        }
    }

    /// A processor comes in, which read this, and does its granted steps.
    fn come_in(&mut self, alloc: Global, visitor: Visitor, reads: &[Read]) -> Result<bool, NoMemory>
        requires { copied_bytes (done_by self.old ++ Entry visitor.cpu visitor.regs visitor.steps reads.now ∷ []) ≤ 2 ^ 28 }
        ensures { Does self.old self.new (Entry visitor.cpu visitor.regs visitor.steps reads.now) result }
    {
        if !self.lay_for(&visitor, reads) {
            return Ok(false);
        }
        let ready = self.prepare(alloc, &visitor, reads)?;
        match ready {
            Some(prepared) => {
                self.admit(alloc, visitor, prepared);
                Ok(true)
            }
            None => Ok(false),
        }
    }

    /// Whether this visitor can come in. Where it can, RAM has what it reads from then on, if that can be of one RAM.
    pub fn lay_for(&mut self, visitor: &Visitor, reads: &[Read]) -> bool
        ensures can { IsTrue result ↔ CanEnter self.old.at_work.core (coming_of visitor.now) }
        ensures laid { IsTrue result → AreOfOneRam reads.now → HoldsReads self.new.lane reads.now }
        ensures stays { self.new.at_work ≡ self.old.at_work }
    {
        if !self.at_work.may_enter(visitor) {
            return false;
        }
        lay(&mut self.lane, reads);
        true
    }

    /// Prepares the entry of a visitor over RAM that has what it reads, if that can be of one RAM: what was decided can be
    /// read then. `None` where it can't have come next. Whatever the answer, nothing is done so far: RAM stays as it was
    /// laid, and the core as it is, but has more room.
    #[inline(always)]
    pub fn prepare(
        &mut self,
        alloc: Global,
        visitor: &Visitor,
        reads: &[Read],
    ) -> Result<Option<Prepared>, NoMemory>
        requires laid { AreOfOneRam reads.now → HoldsReads self.old.lane reads.now }
        requires few { copied_bytes (done_by self.old ++ Entry visitor.now.cpu visitor.now.regs visitor.now.steps reads.now ∷ []) ≤ 2 ^ 28 }
        ensures prepares { PreparesNext self.old self.new visitor.now reads.now result }
        ensures lane { self.new.lane ≡ self.old.lane }
        ensures room { HasMoreRoom self.old.at_work.core.parts self.new.at_work.core.parts }
        ensures others { SameOutgoing self.old.at_work self.new.at_work }
    {
        match self.at_work.prepare(alloc, visitor, &self.lane) {
            Ok(prepared) => {
                if are_same_reads(prepared.reads.as_slice(), reads) {
                    Ok(Some(prepared))
                } else {
                    Ok(None)
                }
            }
            Err(EnterRefusal::Full { .. }) => Ok(None),
            Err(EnterRefusal::Memory) => Err(NoMemory),
        }
    }

    /// Lets a visitor that can come in do so, as it was prepared, and does its granted steps. Takes no memory, and can't fail.
    #[inline(always)]
    pub fn admit(&mut self, alloc: Global, visitor: Visitor, prepared: Prepared)
        requires can { CanEnter self.old.at_work.core (coming_of visitor) }
        requires prepared { WasPrepared self.old.at_work.core.parts visitor.regs.a prepared }
        ensures done { HasDone self.old self.new (Entry visitor.cpu visitor.regs visitor.steps prepared.reads) }
        ensures came { (lane : List ℕ) → IsPrepared self.old.at_work.core.parts visitor.regs.a lane prepared
            → HasComeIn self.old.at_work self.new.at_work visitor lane }
    {
        self.at_work.admit(alloc, visitor, prepared);
    }

    /// A processor goes out with these registers.
    fn go_out(&mut self, cpu: u8, regs: &Regs) -> bool
        ensures { Does self.old self.new (Exit cpu regs.now) (Ok result) }
    {
        if !self.at_work.is_inside(cpu) {
            return false;
        }
        let out = self.at_work.leave(cpu, &mut self.lane);
        are_same_regs(out.regs, regs)
    }
}
