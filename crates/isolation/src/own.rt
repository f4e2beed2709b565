//! What happened to a session, and what it was answered.
ghost use Rattle.std.specs.Prelude.{◌≡◌, IfOk, Some};
ghost use Rattle.realm_notes.specs.Journals.{IsJournal};
ghost use Rattle.isolation.specs.Logs.{IsLogOf};
ghost use Rattle.kernel_model.specs.Application.{Application, booted};
ghost use Rattle.native_tas.specs.Table.{entries};
ghost use Rattle.own_model.specs.Isolation.{IsSessionOf, steps_in};
ghost use Rattle.own_model.specs.Own.{own_events, own_replies};
ghost use Rattle.own_model.specs.Solo.{solo_replies, unopened};
ghost use Rattle.solo.specs.Feeding.{CanBeFed};

use crate::forgetting::own_log_of;
use crate::session_log::OwnLog;
use base::NoMemory;
use event_journal::Journal;
use journal_notes::{events_in, replies_in};
use native_tas::Natives;
use own_model::{OwnEvent, OwnReply};
use realm_notes::LogReader;
use std::alloc::Global;
use ta_isa::Boot;

/// The application of a session, and its events with their replies, by the journal of a core of this boot that is legal, whose
/// entries have read at most 2^28 bytes in all, and each of them the same byte wherever its reads share an address.
/// `NoMemory` where memory is wanting.
pub fn own_log(
    alloc: Global,
    boot: &Boot,
    natives: &Natives,
    journal: &Journal,
    session: u32,
) -> Result<OwnLog, NoMemory>
    requires { IsJournal (booted boot.now (entries natives.now)) journal.now.events }
    ensures { IfOk result (IsLogOf (booted boot.now (entries natives.now)) journal.now.events session) }
{
    let mut reader = LogReader::of_session(alloc, boot, natives, session)?;
    let log = reader.reads_all(alloc, journal.as_slice())?;
    let app = reader.into_app()?;
    let entries = own_log_of(alloc, log)?;
    Ok(OwnLog { app, entries })
}

/// What has happened to a session, by the journal of a core of this boot that is legal, whose entries have read at most
/// 2^28 bytes in all, and each of them the same byte wherever its reads share an address. `NoMemory` where memory is
/// wanting. The machine of a session of an application whose sessions share no instance can be fed with them, one after
/// the other.
pub fn own_events(
    alloc: Global,
    boot: &Boot,
    natives: &Natives,
    journal: &Journal,
    session: u32,
) -> Result<Vec<OwnEvent>, NoMemory>
    requires { IsJournal (booted boot.now (entries natives.now)) journal.now.events }
    ensures events { IfOk result (λ events. events.items
        ≡ own_events (booted boot.now (entries natives.now)) journal.now.events session) }
    ensures feeds { (app : Application)
        → IsSessionOf (booted boot.now (entries natives.now)) journal.now.events session app
        → IfOk result (λ events. CanBeFed (steps_in journal.now.events) app (unopened boot.now.key) events.items) }
{
    // for the proof: no slice has 2^64 elements, so that the steps of all entries fit 128 bits
    let _events = journal.as_slice();
    let log = own_log(alloc, boot, natives, journal, session)?;
    events_in(alloc, log.entries)
}

/// What a session was answered, by the same. A session of an application whose sessions share no instance was answered
/// as the machine of one session answers to its events.
pub fn own_replies(
    alloc: Global,
    boot: &Boot,
    natives: &Natives,
    journal: &Journal,
    session: u32,
) -> Result<Vec<OwnReply>, NoMemory>
    requires { IsJournal (booted boot.now (entries natives.now)) journal.now.events }
    ensures replies { IfOk result (λ replies. replies.items
        ≡ own_replies (booted boot.now (entries natives.now)) journal.now.events session) }
    ensures alone { (app : Application)
        → IsSessionOf (booted boot.now (entries natives.now)) journal.now.events session app
        → IfOk result (λ replies. solo_replies (steps_in journal.now.events) app boot.now.key
        (own_events (booted boot.now (entries natives.now)) journal.now.events session) ≡ Some replies.items) }
{
    let log = own_log(alloc, boot, natives, journal, session)?;
    replies_in(alloc, log.entries)
}
