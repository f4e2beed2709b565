//! The log of a session, by that of its realm: the number that a realm gives its one session is forgotten.
ghost use Rattle.std.specs.Prelude.{◌≡◌, ◌++◌, IfOk, filter_map};
ghost use Rattle.std.specs.Option.{option_map, option_to_list};
ghost use Rattle.group_model.specs.declared.group_reply.GroupReply.{GroupReply as AnyReply};
ghost use Rattle.realm_model.specs.Forgetting.{forgotten, open_forgotten, own_event_of, own_logged};

use crate::session_log::Logged;
use base::NoMemory;
use own_model::{OwnEvent, OwnInput, OwnReply};
use realm_notes::{GroupEvent, GroupReply, RealmEvent};
use std::alloc::Global;
use ta_params::Login;

/// The event that an open with these parameters is for its session, if they were copied.
fn open_forgotten(input: OwnInput, login: Login, area: bool) -> Option<OwnEvent>
    ensures { result ≡ open_forgotten input login area }
{
    match input {
        OwnInput::Copied(params) => Some(OwnEvent::Open {
            params,
            login,
            area,
        }),
        OwnInput::Faulty | OwnInput::Unread => None,
    }
}

/// The event of a machine without the number of its session: whether there are pages is asked of no session.
fn forgotten(came: GroupEvent) -> Option<OwnEvent>
    ensures { result ≡ forgotten came }
{
    match came {
        GroupEvent::Open {
            input,
            login,
            area,
            ..
        } => open_forgotten(input, login, area),
        GroupEvent::Invoke {
            func,
            input,
            area,
            ..
        } => Some(OwnEvent::Invoke { func, input, area }),
        GroupEvent::Close { area, .. } => Some(OwnEvent::Close { area }),
        GroupEvent::Cancel { .. } => Some(OwnEvent::Cancel),
        GroupEvent::Seen { call, steps } => Some(OwnEvent::Seen { call, steps }),
        GroupEvent::Room { .. } => None,
        GroupEvent::Back { call, input } => Some(OwnEvent::Back { call, input }),
        GroupEvent::Out { call } => Some(OwnEvent::Out { call }),
    }
}

/// The event of a session.
fn own_event_of(event: RealmEvent) -> Option<OwnEvent>
    ensures { result ≡ own_event_of event }
{
    match event {
        RealmEvent::Comes(came) => forgotten(came),
        RealmEvent::TurnedAway => Some(OwnEvent::Limited),
    }
}

/// Its reply, if it has one.
fn own_reply_of(told: Option<GroupReply>) -> Option<OwnReply>
    ensures { result ≡ option_map (λ (reply : AnyReply). reply.reply) told }
{
    let told = told?;
    Some(told.reply)
}

/// An event of a session, with its reply, if it has one.
fn own_logged(logged: realm_notes::Logged) -> Option<Logged>
    ensures { result ≡ own_logged logged }
{
    let (event, told) = logged;
    let came = own_event_of(event)?;
    Some((came, own_reply_of(told)))
}

/// Adds an event, if it is one of the session.
fn add(entries: &mut Vec<Logged>, entry: Option<Logged>) -> Result<(), NoMemory>
    ensures { IfOk result (λ _. entries.new.items ≡ entries.old.items ++ option_to_list entry) }
{
    if let Some(logged) = entry {
        entries.push(logged)?;
    }
    Ok(())
}

/// The log of a session.
pub(crate) fn own_log_of(
    alloc: Global,
    log: Vec<realm_notes::Logged>,
) -> Result<Vec<Logged>, NoMemory>
    ensures { IfOk result (λ entries. entries.items ≡ filter_map own_logged log.items) }
{
    let mut entries = Vec::with_capacity(alloc, log.len())?;
    for logged in log {
        add(&mut entries, own_logged(logged))?;
    }
    Ok(entries)
}
