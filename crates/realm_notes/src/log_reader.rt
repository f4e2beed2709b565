//! The log of a realm, read off the events of a journal one after the other, or whole.
ghost use Rattle.std.specs.Prelude.{◌≡◌, ◌≤◌, ◌^◌, [], ◌∷◌, ◌++◌, IfOk};
ghost use Rattle.std.specs.Option.{option_and_then, option_map};
ghost use Rattle.audit_model.specs.Verdicts.{CanBegin};
ghost use Rattle.event_journal.specs.Journal.{copied_bytes};
ghost use Rattle.journal_notes.specs.Booting.{IsApart};
ghost use Rattle.kernel_model.specs.Application.{booted};
ghost use Rattle.kernel_model.specs.Instances.{app_of};
ghost use Rattle.kernel_state.specs.Booting.{IsWithinLimits};
ghost use Rattle.kernel_state.specs.Meaning.{booted_of};
ghost use Rattle.kernel_state.specs.Setup.{application_of};
ghost use Rattle.native_tas.specs.Table.{entries};
ghost use Rattle.realm_model.specs.Reading.{noted};
ghost use Rattle.realm_notes.specs.Reading.{IsReader, IsReading, IsReadingOf, Reads, app_by, boot_of, events_of, its_realm, noted_by};
ghost use Rattle.realm_notes.specs.Realms.{realm_of};

use crate::log::{BoxedEntry, Logged};
use crate::notes::Notes;
use crate::realm::Realm;
use base::NoMemory;
use event_journal::Event;
use journal_notes::{Replay, read, read_all};
use kernel_state::Application;
use native_tas::Natives;
use std::alloc::Global;
use ta_isa::Boot;
use uuid::Uuid;

/// What reads the log of a realm off the events of a journal, one after the other: a core on which they are done again, and
/// what is noted of the realm.
#[derive(Drop)]
pub struct LogReader {
    pub(crate) replay: Replay,
    pub(crate) notes: Notes,
}

/// The application of this UUID, if there is one.
fn app_of(replay: &Replay, uuid: Option<Uuid>) -> Result<Option<Application>, NoMemory>
    ensures { IfOk result (λ app. option_and_then (app_of (booted_of replay.now.at_work.core)) uuid
        ≡ option_map application_of app) }
{
    match uuid {
        Some(uuid) => replay.at_work.core.parts.setup.application(&uuid),
        None => Ok(None),
    }
}

impl LogReader {
    /// Reads the log of the session of this number, off a journal of a core of this boot of which nothing is read so far.
    pub fn of_session(
        alloc: Global,
        boot: &Boot,
        natives: &Natives,
        session: u32,
    ) -> Result<LogReader, NoMemory>
        requires limits { IsWithinLimits boot.now }
        requires apart { IsApart boot.now (entries natives.now) }
        ensures { IfOk result (IsReadingOf (booted boot.now (entries natives.now)) [] (Realm.OneSession session)) }
    {
        let replay = Replay::new(alloc, boot, natives)?;
        let notes = Notes::new(alloc, Realm::OneSession(session));
        Ok(LogReader { replay, notes })
    }

    /// Reads the log of the sessions of this UUID's application, off a journal of a core of this boot of which nothing is read so
    /// far; `None` where the boot has no such application.
    pub fn of_sessions(
        alloc: Global,
        boot: &Boot,
        natives: &Natives,
        uuid: Uuid,
    ) -> Result<Option<LogReader>, NoMemory>
        requires limits { IsWithinLimits boot.now }
        requires apart { IsApart boot.now (entries natives.now) }
        ensures { IfOk result (IsReader (booted boot.now (entries natives.now)) uuid) }
    {
        let replay = Replay::new(alloc, boot, natives)?;
        let found = replay.at_work.core.parts.setup.application(&uuid)?;
        match found {
            Some(app) => {
                let notes = Notes::new(alloc, Realm::AllSessions(app));
                Ok(Some(LogReader { replay, notes }))
            }
            None => Ok(None),
        }
    }

    /// Whose log it reads.
    pub fn realm(&self) -> &Realm
        ensures { result.now ≡ its_realm self.now }
    {
        &self.notes.realm
    }

    /// Reads an event: what it adds to the realm's log; `None` where it can't have come next. After that, and after want of
    /// memory, the reader is of no further use.
    pub fn reads(
        &mut self,
        alloc: Global,
        event: &Event,
    ) -> Result<Option<Vec<BoxedEntry>>, NoMemory>
        requires reading { IsReading self.old }
        requires few { copied_bytes (events_of self.old ++ event.now ∷ []) ≤ 2 ^ 28 }
        ensures { Reads self.old self.new event.now result }
    {
        read(alloc, &mut self.replay, &mut self.notes, event)
    }

    /// Reads the events of a journal, of which nothing is read so far: the whole log.
    pub fn reads_all(&mut self, alloc: Global, events: &[Event]) -> Result<Vec<Logged>, NoMemory>
        requires can { CanBegin (boot_of self.old) events.now }
        requires few { copied_bytes events.now ≤ 2 ^ 28 }
        requires nothing { events_of self.old ≡ [] }
        requires reading { IsReading self.old }
        ensures reading { IfOk result (λ _. IsReadingOf (boot_of self.old) events.now (its_realm self.old) self.new) }
        ensures log { IfOk result (λ log. log.items ≡ (noted (boot_of self.old) events.now (realm_of (its_realm self.old))).log) }
    {
        read_all(alloc, &mut self.replay, &mut self.notes, events)
    }

    /// The realm's application: of one session, once its open has come in.
    pub fn into_app(self) -> Result<Option<Application>, NoMemory>
        requires { IsReading self }
        ensures { IfOk result (λ app. app_by (realm_of (its_realm self)) (boot_of self) (noted_by self) ≡ option_map application_of app) }
    {
        let LogReader { replay, notes } = self;
        let uuid = notes.uuid();
        match notes.into_realm() {
            Realm::OneSession(_) => app_of(&replay, uuid),
            Realm::AllSessions(app) => Ok(Some(app)),
        }
    }
}
