//! What happened to the sessions of an application, and what they were answered.
ghost use Rattle.std.specs.Prelude.{◌≡◌, IfOk, Some};
ghost use Rattle.group_model.specs.Group.{group_machine_replies, nobody_there};
ghost use Rattle.group_solo.specs.Feeding.{CanBeFed};
ghost use Rattle.instance_groups.specs.Journals.{IsLogOf, IsSharedApp, group_events_of, group_replies_of};
ghost use Rattle.realm_notes.specs.Journals.{IsJournal};
ghost use Rattle.kernel_model.specs.Application.{Application, booted};
ghost use Rattle.native_tas.specs.Table.{entries};
ghost use Rattle.own_model.specs.Isolation.{steps_in};

use crate::group_log::GroupLog;
use crate::machine_log::machine_log_of;
use base::NoMemory;
use event_journal::Journal;
use group_model::{GroupEvent, GroupReply};
use journal_notes::{events_in, replies_in};
use native_tas::Natives;
use realm_notes::LogReader;
use std::alloc::Global;
use ta_isa::Boot;
use uuid::Uuid;

/// The application of this UUID, and the events of its sessions with their replies, by the journal of a core of this boot that
/// is legal, whose entries have read at most 2^28 bytes in all, and each of them the same byte wherever its reads share an
/// address. No application and no events where the boot has none of this UUID. `NoMemory` where memory is wanting.
pub fn read_group_log(
    alloc: Global,
    boot: &Boot,
    natives: &Natives,
    journal: &Journal,
    uuid: Uuid,
) -> Result<GroupLog, NoMemory>
    requires { IsJournal (booted boot.now (entries natives.now)) journal.now.events }
    ensures { IfOk result (IsLogOf (booted boot.now (entries natives.now)) journal.now.events uuid) }
{
    let made = LogReader::of_sessions(alloc, boot, natives, uuid)?;
    match made {
        Some(mut reader) => {
            let log = reader.reads_all(alloc, journal.as_slice())?;
            let app = reader.into_app()?;
            let entries = machine_log_of(alloc, log)?;
            Ok(GroupLog { app, entries })
        }
        None => Ok(GroupLog {
            app: None,
            entries: Vec::new(alloc),
        }),
    }
}

/// What has happened to the sessions of the application of this UUID, by the journal of a core of this boot that is legal, whose
/// entries have read at most 2^28 bytes in all, and each of them the same byte wherever its reads share an address. Nothing
/// where the boot has no application of this UUID. `NoMemory` where memory is wanting. The machine of a group whose sessions
/// share an instance can be fed with them, one after the other.
pub fn group_events(
    alloc: Global,
    boot: &Boot,
    natives: &Natives,
    journal: &Journal,
    uuid: Uuid,
) -> Result<Vec<GroupEvent>, NoMemory>
    requires { IsJournal (booted boot.now (entries natives.now)) journal.now.events }
    ensures events { IfOk result (λ events. events.items
        ≡ group_events_of (booted boot.now (entries natives.now)) journal.now.events uuid) }
    ensures feeds { (app : Application) → IsSharedApp (booted boot.now (entries natives.now)) uuid app
        → IfOk result (λ events. CanBeFed (steps_in journal.now.events) app (nobody_there boot.now.key) events.items) }
{
    // for the proof: no slice has 2^64 elements, so that the steps of all entries fit 128 bits
    let _events = journal.as_slice();
    let log = read_group_log(alloc, boot, natives, journal, uuid)?;
    events_in(alloc, log.entries)
}

/// What they were answered, by the same. Sessions that share an instance were answered as the machine of their group answers to
/// its events.
pub fn group_replies(
    alloc: Global,
    boot: &Boot,
    natives: &Natives,
    journal: &Journal,
    uuid: Uuid,
) -> Result<Vec<GroupReply>, NoMemory>
    requires { IsJournal (booted boot.now (entries natives.now)) journal.now.events }
    ensures replies { IfOk result (λ replies. replies.items
        ≡ group_replies_of (booted boot.now (entries natives.now)) journal.now.events uuid) }
    ensures alone { (app : Application) → IsSharedApp (booted boot.now (entries natives.now)) uuid app
        → IfOk result (λ replies. group_machine_replies (steps_in journal.now.events) app boot.now.key
        (group_events_of (booted boot.now (entries natives.now)) journal.now.events uuid) ≡ Some replies.items) }
{
    let log = read_group_log(alloc, boot, natives, journal, uuid)?;
    replies_in(alloc, log.entries)
}
