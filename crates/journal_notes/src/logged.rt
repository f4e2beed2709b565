//! Logs: events of somebody, each beside its reply.
ghost use Rattle.std.specs.Prelude.{◌≡◌, ◌++◌, IfOk};
ghost use Rattle.std.specs.Option.{option_to_list};
ghost use Rattle.journal_notes.specs.Logs.{events_in, replies_in};

use base::NoMemory;
use boxed::Boxed;
use std::alloc::Global;

/// An event of somebody, with its reply, if it has one.
pub type Logged<E, R> = (E, Option<R>);

/// An event of somebody, with its reply, if it has one, each of both on the heap.
pub type BoxedEntry<E, R> = (Boxed<E>, Option<Boxed<R>>);

/// The entry itself.
fn logged_of<E: Drop, R: Drop>(entry: BoxedEntry<E, R>) -> Logged<E, R>
    ensures { result ≡ entry }
{
    let (event, reply) = entry;
    match reply {
        Some(reply) => (event.into_inner(), Some(reply.into_inner())),
        None => (event.into_inner(), None),
    }
}

/// Adds what is new to a log.
pub(crate) fn add_all<E: Drop, R: Drop>(
    log: &mut Vec<Logged<E, R>>,
    news: Vec<BoxedEntry<E, R>>,
) -> Result<(), NoMemory>
    ensures { IfOk result (λ _. log.new.items ≡ log.old.items ++ news.items) }
{
    for entry in news {
        log.push(logged_of(entry))?;
    }
    Ok(())
}

/// The event itself.
fn event_of<E: Drop, R: Drop>(logged: Logged<E, R>) -> E
    ensures { result ≡ logged.0 }
{
    logged.0
}

/// The events of a log.
pub fn events_in<E: Drop, R: Drop>(
    alloc: Global,
    log: Vec<Logged<E, R>>,
) -> Result<Vec<E>, NoMemory>
    ensures { IfOk result (λ events. events.items ≡ events_in log.items) }
{
    let mut events = Vec::with_capacity(alloc, log.len())?;
    for logged in log {
        events.push(event_of(logged))?;
    }
    Ok(events)
}

/// The reply of an event, if it has one.
fn reply_of<E: Drop, R: Drop>(logged: Logged<E, R>) -> Option<R>
    ensures { result ≡ logged.1 }
{
    logged.1
}

/// Adds a reply, if there is one.
fn add<R: Drop>(replies: &mut Vec<R>, told: Option<R>) -> Result<(), NoMemory>
    ensures { IfOk result (λ _. replies.new.items ≡ replies.old.items ++ option_to_list told) }
{
    if let Some(reply) = told {
        replies.push(reply)?;
    }
    Ok(())
}

/// The replies of a log.
pub fn replies_in<E: Drop, R: Drop>(
    alloc: Global,
    log: Vec<Logged<E, R>>,
) -> Result<Vec<R>, NoMemory>
    ensures { IfOk result (λ replies. replies.items ≡ replies_in log.items) }
{
    let mut replies = Vec::with_capacity(alloc, log.len())?;
    for logged in log {
        add(&mut replies, reply_of(logged))?;
    }
    Ok(replies)
}
