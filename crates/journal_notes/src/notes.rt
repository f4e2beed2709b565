//! What notes of somebody can do.
ghost use Rattle.std.specs.Prelude.{◌≡◌, ◌<◌, ◌++◌, ◌∷◌, [], ℕ, List, Option, IfOk};
ghost use Rattle.journal_replay.specs.Insides.{IsInside};
ghost use Rattle.event_journal.specs.declared.event.Event.{Event as AnyEvent};
ghost use Rattle.event_journal.specs.declared.event.Event.TheVariants.{Entry};
ghost use Rattle.journal_notes.specs.Meaning.{AreKept, Goes, HasTaken, IsExitNoted, IsNoted, Meaning, same_subject};
ghost use Rattle.journal_replay.specs.Entering.{IsPrepared, WasPrepared};
ghost use Rattle.journal_replay.specs.Visiting.{coming_of};
ghost use Rattle.kernel_state.specs.Entering.{HasEntered};
ghost use Rattle.kernel_state.specs.Leaving.{CanLeave};
ghost use Rattle.kernel_state.specs.Meaning.{events_of, terms_of};
ghost use Rattle.kernel_state.specs.Work.{IsRanOf};
ghost use Rattle.kernel_state.specs.declared.kernel_core.Core.{Core as AnyCore};
ghost use Rattle.kernel_state.specs.declared.work.Work.{Work as AnyWork};
ghost use Rattle.ns_ram.specs.declared.read.Read.{Read as AnyRead};

use crate::logged::BoxedEntry;
use base::NoMemory;
use journal_replay::{CoreAtWork, Prepared, Visitor};
use kernel_state::{Core, Ran};
use ns_ram::Lane;
use smc_abi::Regs;
use std::alloc::Global;

/// What is noted of somebody as events are done again on a core.
pub trait EventNotes {
    /// What an entry is for them, as far as it can be told before it is done.
    type Arrival: Drop;

    /// What happens to them.
    type Event: Drop;

    /// What they are answered.
    type Reply: Drop;

    // Whose notes they are, what the log of those is by a history, and when the notes are what is noted by it.
    ghost meaning: { Meaning Self (Self.Event × Option Self.Reply) };

    // What an entry with these registers is for them, over this lane, by the core as it is before.
    ghost IsArrival: { Self → AnyCore → List ℕ → List ℕ → Self.Arrival → Type 0 };

    /// What an entry with these registers is for them, which is prepared and not yet done, by what was decided and the core.
    fn arrival(
        &self,
        alloc: Global,
        core: &Core,
        regs: &Regs,
        prepared: &Prepared,
    ) -> Result<Self::Arrival, NoMemory>
        requires { WasPrepared core.now.parts regs.now.a prepared.now }
        ensures { (lane : List ℕ) → IsPrepared core.now.parts regs.now.a lane prepared.now
            → IfOk result (IsArrival self.now core.now regs.now.a lane) };

    /// Notes that a processor has come in, for which the entry was this, and which goes out with that. They were those of the
    /// events that some core had done before it.
    fn come_in(
        &mut self,
        alloc: Global,
        core: &Core,
        visitor: Visitor,
        arrival: Self::Arrival,
        ran: &Ran,
    ) -> Result<(), NoMemory>
        requires cpu { visitor.cpu < 8 }
        requires can { CanLeave core.now ran.now }
        requires own { ran.now.cpu ≡ visitor.cpu }
        requires kept { AreKept meaning self.old }
        ensures noted { (old : AnyCore) (lane : List ℕ) (reads : List AnyRead) (work : AnyWork) → IsRanOf work ran.now
            → HasEntered old core.now (coming_of visitor) lane work
            → events_of core.now ≡ events_of old ++ Entry visitor.cpu visitor.regs visitor.steps reads ∷ []
            → IsArrival self.old old visitor.regs.a lane arrival
            → IfOk result (λ _. IsNoted meaning old core.now self.old self.new
            (Entry visitor.cpu visitor.regs visitor.steps reads)) }
        ensures subject { same_subject meaning self.old self.new };

    /// A processor that is inside goes out, and that is noted.
    fn go_out(
        &mut self,
        alloc: Global,
        at_work: &mut CoreAtWork,
        cpu: u8,
        lane: &mut Lane,
    ) -> Result<(), NoMemory>
        requires { IsInside at_work.old.core cpu }
        ensures noted { IfOk result (λ _. IsExitNoted meaning at_work.old.core at_work.new.core self.old self.new cpu
            lane.old lane.new) }
        ensures terms { terms_of at_work.new.core ≡ terms_of at_work.old.core }
        ensures subject { same_subject meaning self.old self.new };

    /// Takes what was listed of the event that was noted last.
    fn take_log(&mut self, alloc: Global) -> Vec<BoxedEntry<Self::Event, Self::Reply>>
        ensures { (old new : AnyCore) (before : Self) (event : AnyEvent) → Goes old new event
            → IsNoted meaning old new before self.old event → same_subject meaning before self.old
            → HasTaken meaning old new before self.new result.items };
}
