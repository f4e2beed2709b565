//! A realm's notes, taken as events are done again.
ghost use Rattle.realm_notes.specs.Meaning.{IsArrivalOn, meaning};

use crate::arriving::{Arrival, arrival_on};
use crate::coming::{errand_of, note_entry};
use crate::going::leave_slot;
use crate::log::BoxedEntry;
use crate::notes::Notes;
use base::NoMemory;
use group_model::GroupReply;
use journal_notes::{CoreAtWork, EventNotes};
use kernel_entry::{Prepared, Visitor};
use kernel_state::{Core, Errand, Ran};
use ns_ram::Lane;
use realm_model::RealmEvent;
use smc_abi::Regs;
use std::alloc::Global;

impl EventNotes for Notes {
    type Arrival = Arrival;

    type Event = RealmEvent;

    type Reply = GroupReply;

    ghost meaning = { meaning };

    ghost IsArrival = { λ notes core regs lane came. IsArrivalOn notes core regs lane came };

    fn arrival(
        &self,
        alloc: Global,
        core: &Core,
        regs: &Regs,
        prepared: &Prepared,
    ) -> Result<Arrival, NoMemory> {
        arrival_on(alloc, self, core, regs, prepared)
    }

    fn come_in(
        &mut self,
        alloc: Global,
        core: &Core,
        visitor: Visitor,
        arrival: Arrival,
        ran: &Ran,
    ) -> Result<(), NoMemory> {
        note_entry(alloc, self, core, visitor, arrival, ran)
    }

    fn go_out(
        &mut self,
        alloc: Global,
        at_work: &mut CoreAtWork,
        cpu: u8,
        lane: &mut Lane,
    ) -> Result<(), NoMemory> {
        match errand_of(at_work.core.parts.processors.as_slice(), cpu) {
            Some(Errand::InSlot(slot)) => leave_slot(alloc, at_work, slot, cpu, lane, self),
            Some(Errand::Fixed(_)) => {
                at_work.leave(cpu, lane);
                self.leave_answered(alloc, cpu)
            }
            None => unreachable!(),
        }
    }

    fn take_log(&mut self, alloc: Global) -> Vec<BoxedEntry> {
        self.take_list(alloc)
    }
}
