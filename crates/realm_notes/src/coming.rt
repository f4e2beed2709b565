//! What is noted of a processor that has come in.
ghost use Rattle.std.specs.Prelude.{◌≡◌, ◌<◌, ◌==◌, false, List, slice_get};
ghost use Rattle.std.specs.Option.{option_map_or};
ghost use Rattle.base.specs.NumberMap.{get};
ghost use Rattle.kernel_entry.specs.Visiting.{coming_of};
ghost use Rattle.kernel_entry.specs.declared.visitor.Visitor.{Visitor as AnyVisitor};
ghost use Rattle.kernel_model.specs.Application.{Booted};
ghost use Rattle.kernel_model.specs.Kernel.{Kernel};
ghost use Rattle.kernel_state.specs.Entering.{visit_of};
ghost use Rattle.kernel_state.specs.Leaving.{CanLeave};
ghost use Rattle.kernel_state.specs.Tables.{tables_of};
ghost use Rattle.kernel_state.specs.Work.{IsRanOf};
ghost use Rattle.kernel_state.specs.declared.work.Work.{Work as AnyWork};
ghost use Rattle.ns_ram.specs.declared.read.Read.{Read as AnyRead};
ghost use Rattle.own_model.specs.Own as own;
ghost use Rattle.realm_model.specs.Reading as realm;
ghost use Rattle.realm_model.specs.Realm.{client_of};
ghost use Rattle.realm_notes.specs.Arriving.{watch};
ghost use Rattle.realm_notes.specs.Noted.{AreNoted, HasNumbersLeft, session_of};
ghost use Rattle.realm_notes.specs.Realms.{is_turned_away, realm_of};
ghost use Rattle.realm_notes.specs.Replaying.{HasArrived, HasArrivedIn, IsEntryNoted, errand_at};
ghost use Rattle.session_table.specs.declared.session.Session.{Session as AnySession};

use crate::arriving::{Arrival, NewEvent, Resumed};
use crate::notes::Notes;
use crate::realm::Realm;
use base::NoMemory;
use boxed::Boxed;
use kernel_entry::Visitor;
use kernel_state::{Carried, Core, Errand, Processor, Ran, Tables};
use smc_abi::{Answer, ETHREAD_LIMIT};
use std::alloc::Global;

/// What a processor that is inside came for.
pub(crate) fn errand_of(processors: &[Processor], cpu: u8) -> Option<Errand>
    ensures { result ≡ errand_at (slice_get processors.now cpu) }
{
    match processors.get(usize::from(cpu)) {
        Some(Processor::Inside { errand, .. }) => Some(*errand),
        Some(Processor::Outside) | None => None,
    }
}

/// The answer is ETHREAD_LIMIT.
fn is_limit(answer: Answer) -> bool
    ensures { result ≡ own.is_limit answer }
{
    match answer {
        Answer::Words(code, ..) => code == ETHREAD_LIMIT,
        Answer::Alloc { .. }
        | Answer::Free { .. }
        | Answer::Cmd { .. }
        | Answer::Interrupt { .. } => false,
    }
}

/// The session is there, and this client's.
fn is_of_client(tables: &Tables, session: u32, client: u32) -> bool
    ensures { result ≡ option_map_or (λ (kept : AnySession). kept.client == client) (get tables.now.sessions.kept session) false }
{
    match tables.sessions.find(session) {
        Some(kept) => kept.client == client,
        None => false,
    }
}

/// A processor whose answer was fixed has come in with a call of the one session's client, and is turned away.
fn is_away(realm: &Realm, tables: &Tables, visitor: Visitor, answer: Answer) -> bool
    ensures { (kernel : Kernel) → tables_of tables.now ≡ kernel.tables
        → result ≡ is_turned_away kernel (realm_of realm.now) visitor.regs.a answer }
{
    match realm {
        Realm::OneSession(member) => {
            is_limit(answer) && is_of_client(tables, *member, visitor.regs.a[7])
        }
        Realm::AllSessions(_) => false,
    }
}

/// Notes that a processor has come in whose answer was fixed.
fn note_answered(notes: &mut Notes, tables: &Tables, visitor: Visitor, answer: Answer)
    requires { visitor.cpu < 8 }
    ensures noted { (kernel next : Kernel) (reads : List AnyRead) (before : realm.Notes) → tables_of tables.now ≡ kernel.tables
        → AreNoted notes.old before → AreNoted notes.new (realm.fixed_noted
        (record { kernel = kernel; next = next; visit = visit_of (coming_of visitor); reads = reads }) before answer
        (client_of (realm_of notes.old.realm))) }
    ensures realm { notes.new.realm ≡ notes.old.realm }
{
    if is_away(&notes.realm, tables, visitor, answer) {
        notes.turn_away(visitor.cpu);
    }
}

/// The kernel's session of the call that a processor carries.
fn session_of(call: &Carried) -> u32
    ensures { result ≡ session_of call.now }
{
    match call {
        Carried::Nothing => 0,
        Carried::Resting(cont) | Carried::Running(cont) => cont.session,
    }
}

/// Notes a new call that has come into a slot.
fn note_new(notes: &mut Notes, slot: u8, came: NewEvent, ran: &Ran) -> Result<(), NoMemory>
    requires slot { slot < 16 }
    requires few { HasNumbersLeft notes.old }
    ensures noted { (boot : Booted) (kernel next : Kernel) (before : realm.Notes) (visitor : AnyVisitor) (reads : List AnyRead) (work : AnyWork)
        → IsRanOf work ran.now
        → HasArrivedIn (watch boot (realm_of notes.old.realm) before kernel) next visitor reads (Arrival.New came) work slot
        → IsEntryNoted (watch boot (realm_of notes.old.realm) before kernel) notes.old notes.new next visitor reads result }
    ensures realm { notes.new.realm ≡ notes.old.realm }
{
    if notes.realm.counts(&ran.call) {
        notes.enter(slot, session_of(&ran.call), came)
    } else {
        Ok(())
    }
}

/// Notes a call that has come back into its slot.
fn note_back(
    alloc: Global,
    notes: &mut Notes,
    slot: u8,
    came: Boxed<Resumed>,
) -> Result<(), NoMemory>
    ensures noted { (boot : Booted) (kernel next : Kernel) (before : realm.Notes) (visitor : AnyVisitor) (reads : List AnyRead) (work : AnyWork)
        → HasArrivedIn (watch boot (realm_of notes.old.realm) before kernel) next visitor reads (Arrival.Back came) work slot
        → IsEntryNoted (watch boot (realm_of notes.old.realm) before kernel) notes.old notes.new next visitor reads result }
    ensures realm { notes.new.realm ≡ notes.old.realm }
{
    match notes.number_in(slot) {
        Some(number) => notes.resume(alloc, number, came.into_inner()),
        None => Ok(()),
    }
}

/// Notes what has come into a slot.
fn note_in_slot(
    alloc: Global,
    notes: &mut Notes,
    slot: u8,
    arrival: Arrival,
    ran: &Ran,
) -> Result<(), NoMemory>
    requires slot { slot < 16 }
    requires few { HasNumbersLeft notes.old }
    ensures noted { (boot : Booted) (kernel next : Kernel) (before : realm.Notes) (visitor : AnyVisitor) (reads : List AnyRead) (work : AnyWork)
        → IsRanOf work ran.now
        → HasArrivedIn (watch boot (realm_of notes.old.realm) before kernel) next visitor reads arrival work slot
        → IsEntryNoted (watch boot (realm_of notes.old.realm) before kernel) notes.old notes.new next visitor reads result }
    ensures realm { notes.new.realm ≡ notes.old.realm }
{
    match arrival {
        Arrival::New(came) => note_new(notes, slot, came, ran),
        Arrival::Back(came) => note_back(alloc, notes, slot, came),
        Arrival::Nothing => Ok(()),
    }
}

/// Notes that a processor has come in, which goes out with this.
pub(crate) fn note_entry(
    alloc: Global,
    notes: &mut Notes,
    core: &Core,
    visitor: Visitor,
    arrival: Arrival,
    ran: &Ran,
) -> Result<(), NoMemory>
    requires cpu { visitor.cpu < 8 }
    requires can { CanLeave core.now ran.now }
    requires own { ran.now.cpu ≡ visitor.cpu }
    requires few { HasNumbersLeft notes.old }
    ensures noted { (boot : Booted) (kernel next : Kernel) (before : realm.Notes) (reads : List AnyRead) (work : AnyWork)
        → IsRanOf work ran.now
        → HasArrived core.now.parts (watch boot (realm_of notes.old.realm) before kernel) next visitor reads arrival work
        → IsEntryNoted (watch boot (realm_of notes.old.realm) before kernel) notes.old notes.new next visitor reads result }
    ensures realm { notes.new.realm ≡ notes.old.realm }
{
    match errand_of(core.parts.processors.as_slice(), visitor.cpu) {
        Some(Errand::Fixed(answer)) => {
            note_answered(notes, &core.parts.tables, visitor, answer);
            Ok(())
        }
        Some(Errand::InSlot(slot)) => note_in_slot(alloc, notes, slot, arrival, ran),
        None => unreachable!(),
    }
}
