//! The log of a group, by that of its realm: what is no event of the machine is left out.
ghost use Rattle.std.specs.Prelude.{◌≡◌, ◌++◌, IfOk, filter_map};
ghost use Rattle.std.specs.Option.{option_to_list};
ghost use Rattle.realm_model.specs.Reading.{of_machine};

use crate::group_log::Logged;
use base::NoMemory;
use realm_notes::RealmEvent;
use std::alloc::Global;

/// An event of the machine, with its reply, if it has one.
fn of_machine(logged: realm_notes::Logged) -> Option<Logged>
    ensures { result ≡ of_machine logged }
{
    let (event, told) = logged;
    match event {
        RealmEvent::Comes(came) => Some((came, told)),
        RealmEvent::TurnedAway => None,
    }
}

/// Adds an event, if it is one of the machine.
fn add(entries: &mut Vec<Logged>, entry: Option<Logged>) -> Result<(), NoMemory>
    ensures { IfOk result (λ _. entries.new.items ≡ entries.old.items ++ option_to_list entry) }
{
    if let Some(logged) = entry {
        entries.push(logged)?;
    }
    Ok(())
}

/// The log of a group.
pub(crate) fn machine_log_of(
    alloc: Global,
    log: Vec<realm_notes::Logged>,
) -> Result<Vec<Logged>, NoMemory>
    ensures { IfOk result (λ entries. entries.items ≡ filter_map of_machine log.items) }
{
    let mut entries = Vec::with_capacity(alloc, log.len())?;
    for logged in log {
        add(&mut entries, of_machine(logged))?;
    }
    Ok(entries)
}
