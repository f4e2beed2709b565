//! Comparing what machines of sessions reply with what the sessions were answered.
ghost use Rattle.core_cases.specs.Feeding.{IsJournalOf};
ghost use Rattle.native_tas.specs.Table.{entries};

use crate::conditions::are_of_only_app;
use crate::events::tell_events;
use crate::feeding::feed;
use crate::playing::{boot_again, journal_of, played};
use crate::reading::trace_of;
use crate::replies::line_of;
use anyhow::{Context, Result, bail};
use event_journal::Journal;
use isolation::{own_events, own_replies};
use native_tas::Natives;
use own_model::OwnReply;
use solo::SoloSession;
use std::alloc::Global;
use std::fmt::Write;
use ta_isa::Boot;

/// Tells what has happened to a session. What the machine of the session replies to that.
#[tactic(auto, using(crate::proofs::Fed::first_is, crate::proofs::Fed::first_there, crate::proofs::Fed::fed_first))]
fn replies_alone(
    alloc: Global,
    boot: &Boot,
    natives: &Natives,
    journal: &Journal,
    session: u32,
    told: &mut String,
) -> Result<Vec<OwnReply>>
    requires { IsJournalOf boot.now (entries natives.now) journal.now.events }
{
    let events = own_events(alloc, boot, natives, journal, session)?;
    tell_events(events.as_slice(), told)?;
    if !are_of_only_app(boot, events.as_slice()) {
        bail!("no session of the only application");
    }
    let mut machine = SoloSession::new(alloc, boot, natives, boot.apps.as_slice()[0].uuid)?;
    feed(alloc, &mut machine, events.as_slice())
}

/// The lines of some replies.
fn lines_of(alloc: Global, replies: &[OwnReply]) -> Result<Vec<String>> {
    let mut lines = Vec::new(alloc);
    for reply in replies {
        lines.push(line_of(alloc, reply)?)?;
    }
    Ok(lines)
}

/// Tells a reply by its line, and that of what was answered in its place.
fn tell_reply(reply: &str, answered: &str, told: &mut String) -> Result<()> {
    if reply == answered {
        writeln!(told, "  {reply}")?;
    } else {
        writeln!(told, "  {reply} otherwise {answered}")?;
    }
    Ok(())
}

/// Tells the replies of a machine by their lines, and what was answered otherwise.
pub(crate) fn tell_replies(
    replies: &[String],
    answered: &[String],
    told: &mut String,
) -> Result<()> {
    if replies.len() != answered.len() {
        writeln!(
            told,
            "  {} replies otherwise {}",
            replies.len(),
            answered.len()
        )?;
    }
    for (reply, answered) in replies.iter().zip(answered) {
        tell_reply(reply.as_str(), answered.as_str(), told)?;
    }
    Ok(())
}

/// Tells what has happened to a session, what it was answered and its machine replies.
fn tell_session(
    alloc: Global,
    boot: &Boot,
    natives: &Natives,
    journal: &Journal,
    session: u32,
    told: &mut String,
) -> Result<()>
    requires { IsJournalOf boot.now (entries natives.now) journal.now.events }
{
    writeln!(told, "session {session}")?;
    let replies = replies_alone(alloc, boot, natives, journal, session, told)?;
    let answered = own_replies(alloc, boot, natives, journal, session)?;
    let replies = lines_of(alloc, replies.as_slice())?;
    let answered = lines_of(alloc, answered.as_slice())?;
    tell_replies(replies.as_slice(), answered.as_slice(), told)
}

/// Tells that of each of these sessions.
fn tell_sessions(
    alloc: Global,
    boot: &Boot,
    natives: &Natives,
    journal: &Journal,
    sessions: &str,
) -> Result<String>
    requires { IsJournalOf boot.now (entries natives.now) journal.now.events }
{
    let mut told = String::new(alloc);
    for session in sessions.split(' ') {
        tell_session(alloc, boot, natives, journal, session.parse()?, &mut told)?;
    }
    Ok(told)
}

/// What the sessions of a case tell, whose name has their numbers behind it, once its trace was played.
#[tactic(auto, using(crate::proofs::Tests::is_journal))]
pub(crate) fn sessions_told(alloc: Global, name: &str, text: &[u8]) -> Result<Vec<u8>> {
    let (_name, sessions) = name.split_once(' ').context("reading sessions")?;
    let natives = Natives::new(alloc);
    let trace = trace_of(alloc, &natives, text)?;
    let boot = boot_again(alloc, &natives, text, &trace)?;
    let player = played(alloc, &natives, trace)?;
    let journal = journal_of(&player);
    Ok(tell_sessions(alloc, &boot, &natives, journal, sessions)?.into_bytes())
}
