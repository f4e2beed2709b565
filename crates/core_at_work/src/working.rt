//! What is done with a core at work: its processors come in and go out.
ghost use Rattle.std.specs.Prelude.{◌≡◌, ◌≤◌, ◌^◌, ◌↔◌, ℕ, List, [], IfOk, IsSomeAnd, IsTrue, None, Some, replicate};
ghost use Rattle.std.specs.Option.{option_map};
ghost use Rattle.core_at_work.specs.Booting.{IsApart};
ghost use Rattle.core_at_work.specs.Insides.{IsInside, IsOutside, insides};
ghost use Rattle.core_at_work.specs.Panics.{panic_of};
ghost use Rattle.core_at_work.specs.Working.{ComesIn, GoesOut, HasComeIn, SameOutgoing, outgoing_of};
ghost use Rattle.kernel_entry.specs.Entering.{HasMoreRoom, IsPrepared, PreparesEntry, WasPrepared};
ghost use Rattle.kernel_entry.specs.Visiting.{coming_of};
ghost use Rattle.kernel_model.specs.Application.{booted};
ghost use Rattle.kernel_state.specs.Booting.{IsWithinLimits};
ghost use Rattle.kernel_state.specs.Entering.{CanEnter};
ghost use Rattle.kernel_state.specs.Leaving.{CanLeave};
ghost use Rattle.kernel_state.specs.Meaning.{booted_of, events_of, kernel_of, terms_of};
ghost use Rattle.kernel_state.specs.Terms.{kept_terms};
ghost use Rattle.native_tas.specs.Table.{entries};

use crate::booting::core_on;
use crate::core_at_work::CoreAtWork;
use crate::went_out::{WentOut, panic_of};
use base::NoMemory;
use kernel_entry::{Prepared, Visitor, admit, enter, prepare};
use kernel_exit::leave;
use kernel_state::{Core, EnterRefusal, Ran, Terms};
use native_tas::Natives;
use ns_ram::Lane;
use std::alloc::Global;
use ta_isa::Boot;

/// The most steps that an entry grants.
pub const MOST_STEPS: u32 = 1_000_000;

/// So many processors that are outside.
fn none_inside(alloc: Global, cpus: u8) -> Result<Vec<Option<Ran>>, NoMemory>
    ensures { IfOk result (λ outgoing. outgoing.items ≡ replicate cpus None) }
{
    let mut outgoing = Vec::with_capacity(alloc, usize::from(cpus))?;
    for _ in 0..cpus {
        outgoing.push(None)?;
    }
    Ok(outgoing)
}

/// Puts what a processor goes out with where it is kept.
fn put(kept: &mut Option<Ran>, ran: Ran)
    ensures { kept.new ≡ Some ran }
{
    *kept = Some(ran);
}

impl CoreAtWork {
    /// A core where nothing has happened, put to work.
    pub fn new(alloc: Global, core: Core) -> Result<CoreAtWork, NoMemory>
        requires { events_of core ≡ [] }
        ensures { IfOk result (λ at_work. at_work.core ≡ core) }
    {
        let outgoing = none_inside(alloc, core.parts.setup.cpus)?;
        Ok(CoreAtWork { core, outgoing })
    }

    /// A core of this boot, beside applications that are built in, where nothing has happened. It keeps its events, and its entries
    /// may read 2^28 bytes.
    pub fn booted(alloc: Global, boot: Boot, natives: &Natives) -> Result<CoreAtWork, NoMemory>
        requires limits { IsWithinLimits boot }
        requires apart { IsApart boot (entries natives.now) }
        ensures booted { IfOk result (λ at_work. booted_of at_work.core ≡ booted boot (entries natives.now)) }
        ensures terms { IfOk result (λ at_work. terms_of at_work.core ≡ kept_terms) }
        ensures events { IfOk result (λ at_work. events_of at_work.core ≡ []) }
    {
        CoreAtWork::booted_on(alloc, boot, natives, Terms::KEPT)
    }

    /// The core of [`CoreAtWork::booted`] on other terms.
    pub fn booted_on(
        alloc: Global,
        boot: Boot,
        natives: &Natives,
        terms: Terms,
    ) -> Result<CoreAtWork, NoMemory>
        requires limits { IsWithinLimits boot }
        requires apart { IsApart boot (entries natives.now) }
        requires bounded { terms.most ≤ 2 ^ 63 }
        ensures booted { IfOk result (λ at_work. booted_of at_work.core ≡ booted boot (entries natives.now)) }
        ensures terms { IfOk result (λ at_work. terms_of at_work.core ≡ terms) }
        ensures events { IfOk result (λ at_work. events_of at_work.core ≡ []) }
    {
        let core = core_on(alloc, boot, natives, terms)?;
        CoreAtWork::new(alloc, core)
    }

    /// How many processors there are.
    pub fn cpus(&self) -> u8
        ensures { result ≡ (booted_of self.now.core).cpus }
    {
        self.core.parts.setup.cpus
    }

    /// What a processor that is inside goes out with, to be read.
    pub fn outgoing(&self, cpu: u8) -> &Ran
        requires { IsInside self.now.core cpu }
        ensures kept { outgoing_of self.now cpu ≡ Some result.now }
        ensures own { result.now.cpu ≡ cpu }
        ensures can { CanLeave self.now.core result.now }
    {
        match &self.outgoing[usize::from(cpu)] {
            Some(ran) => ran,
            None => unreachable!(),
        }
    }

    /// The code of the panic in which the granted steps end of the call that a processor goes out with, if they do.
    pub fn panic(&self, cpu: u8) -> Option<u32>
        requires { IsInside self.now.core cpu }
        ensures { IsSomeAnd (kernel_of self.now.core) (λ kernel. result ≡ panic_of kernel cpu) }
    {
        panic_of(self.outgoing(cpu).stop)
    }

    /// Which processors are inside, by their numbers.
    pub fn insides(&self, alloc: Global) -> Result<Vec<bool>, NoMemory>
        ensures { IfOk result (λ inside. option_map insides (kernel_of self.now.core) ≡ Some inside.items) }
    {
        let mut inside = Vec::with_capacity(alloc, self.outgoing.len())?;
        for kept in &self.outgoing {
            inside.push(kept.is_some())?;
        }
        Ok(inside)
    }

    /// Whether there is a processor of this number that is inside.
    pub fn is_inside(&self, cpu: u8) -> bool
        ensures { IsTrue result ↔ IsInside self.now.core cpu }
    {
        self.core.inside(cpu)
    }

    /// Whether there is a processor of this number that is outside.
    fn is_outside(&self, cpu: u8) -> bool
        ensures { IsTrue result ↔ IsOutside self.now.core cpu }
    {
        if cpu >= self.cpus() {
            return false;
        }
        !self.core.inside(cpu)
    }

    /// Whether a visitor can come in: its processor is there and outside, and is granted 1 to 1,000,000 steps.
    pub fn may_enter(&self, visitor: &Visitor) -> bool
        ensures { IsTrue result ↔ CanEnter self.now.core (coming_of visitor.now) }
    {
        self.is_outside(visitor.cpu) && (1..=MOST_STEPS).contains(&visitor.steps)
    }

    /// A processor comes in over the RAM that it sees, and does its granted steps. Where it is refused the core is as it was.
    pub fn enter(
        &mut self,
        alloc: Global,
        visitor: Visitor,
        lane: &Lane,
    ) -> Result<(), EnterRefusal>
        requires { CanEnter self.old.core (coming_of visitor) }
        ensures { ComesIn self.old self.new visitor lane.now result }
    {
        let work = enter(alloc, &mut self.core, visitor, lane)?;
        put(&mut self.outgoing[usize::from(visitor.cpu)], work.run());
        Ok(())
    }

    /// Prepares an entry over the RAM that its processor sees: what was decided can be read then, and all memory of the entry is
    /// taken. The core stays as it is, but has more room. Where the entry is refused the core is as it was.
    #[inline(always)]
    pub fn prepare(
        &mut self,
        alloc: Global,
        visitor: &Visitor,
        lane: &Lane,
    ) -> Result<Prepared, EnterRefusal>
        ensures prepares { PreparesEntry self.old.core self.new.core (coming_of visitor.now) lane.now result }
        ensures room { HasMoreRoom self.old.core.parts self.new.core.parts }
        ensures others { SameOutgoing self.old self.new }
    {
        prepare(alloc, &mut self.core, visitor, lane)
    }

    /// Lets a processor in for what was prepared for its registers, and does its granted steps. Takes no memory, and can't fail.
    #[inline(always)]
    pub fn admit(&mut self, alloc: Global, visitor: Visitor, prepared: Prepared)
        requires can { CanEnter self.old.core (coming_of visitor) }
        requires prepared { WasPrepared self.old.core.parts visitor.regs.a prepared }
        ensures { (lane : List ℕ) → IsPrepared self.old.core.parts visitor.regs.a lane prepared
            → HasComeIn self.old self.new visitor lane }
    {
        let work = admit(alloc, &mut self.core, visitor, prepared);
        put(&mut self.outgoing[usize::from(visitor.cpu)], work.run());
    }

    /// A processor that is inside goes out, its granted steps done. What it has to say is written to the RAM that it sees. Takes no
    /// memory.
    pub fn leave(&mut self, cpu: u8, lane: &mut Lane) -> WentOut
        requires { IsInside self.old.core cpu }
        ensures { GoesOut self.old self.new cpu lane.old lane.new result }
    {
        let panic = self.panic(cpu);
        let Some(ran) = self.outgoing[usize::from(cpu)].take() else {
            unreachable!()
        };
        let regs = leave(&mut self.core, ran, lane);
        WentOut { regs, panic }
    }
}
