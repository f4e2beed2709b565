//! Comparing what the machine of a group replies with what its sessions were answered.
ghost use Rattle.core_cases.specs.Feeding.{HasSharedApp, IsJournalOf};
ghost use Rattle.native_tas.specs.Table.{entries};

use crate::comparing::tell_replies;
use crate::conditions::has_shared_app;
use crate::events::tell_group_events;
use crate::feeding::feed;
use crate::playing::{boot_again, journal_of, played};
use crate::reading::trace_of;
use crate::replies::line_of;
use anyhow::{Result, bail};
use event_journal::Journal;
use group_solo::{GroupReply, GroupSolo};
use instance_groups::{group_events, group_replies};
use native_tas::Natives;
use std::alloc::Global;
use std::fmt::Write;
use ta_isa::Boot;

/// Tells what has happened to the group of the first application. What the machine of the group replies to that.
#[tactic(auto, using(crate::proofs::GroupFed::first_is, crate::proofs::GroupFed::first_shares))]
fn replies_alone(
    alloc: Global,
    boot: &Boot,
    natives: &Natives,
    journal: &Journal,
    told: &mut String,
) -> Result<Vec<GroupReply>>
    requires journal { IsJournalOf boot.now (entries natives.now) journal.now.events }
    requires app { HasSharedApp boot.now }
{
    let uuid = boot.apps.as_slice()[0].uuid;
    let events = group_events(alloc, boot, natives, journal, uuid)?;
    tell_group_events(events.as_slice(), told)?;
    let mut machine = GroupSolo::new(alloc, boot, uuid)?;
    feed(alloc, &mut machine, events.as_slice())
}

/// What the group of the first application was answered.
#[tactic(auto, using(crate::proofs::GroupFed::first_is))]
fn replies_told(
    alloc: Global,
    boot: &Boot,
    natives: &Natives,
    journal: &Journal,
) -> Result<Vec<GroupReply>>
    requires journal { IsJournalOf boot.now (entries natives.now) journal.now.events }
    requires app { HasSharedApp boot.now }
{
    let uuid = boot.apps.as_slice()[0].uuid;
    Ok(group_replies(alloc, boot, natives, journal, uuid)?)
}

/// The line of a reply. Behind it stands the number of the session that it has opened.
fn group_line(alloc: Global, reply: &GroupReply) -> Result<String> {
    let mut line = line_of(alloc, &reply.reply)?;
    if let Some(session) = reply.opened {
        write!(line, " opened {session}")?;
    }
    Ok(line)
}

/// The lines of some replies.
fn lines_of(alloc: Global, replies: &[GroupReply]) -> Result<Vec<String>> {
    let mut lines = Vec::new(alloc);
    for reply in replies {
        lines.push(group_line(alloc, reply)?)?;
    }
    Ok(lines)
}

/// Tells what has happened to the group of the first application, what its machine replies, and what it was answered otherwise.
fn tell_group(
    alloc: Global,
    boot: &Boot,
    natives: &Natives,
    journal: &Journal,
    told: &mut String,
) -> Result<()>
    requires journal { IsJournalOf boot.now (entries natives.now) journal.now.events }
    requires app { HasSharedApp boot.now }
{
    let replies = replies_alone(alloc, boot, natives, journal, told)?;
    let answered = replies_told(alloc, boot, natives, journal)?;
    let replies = lines_of(alloc, replies.as_slice())?;
    let answered = lines_of(alloc, answered.as_slice())?;
    tell_replies(replies.as_slice(), answered.as_slice(), told)
}

/// What the group of a case tells, once its trace was played, whose boot's first application has sessions that share an instance.
#[tactic(auto, using(crate::proofs::Tests::is_journal))]
pub(crate) fn group_told(alloc: Global, text: &[u8]) -> Result<String> {
    let natives = Natives::new(alloc);
    let trace = trace_of(alloc, &natives, text)?;
    let boot = boot_again(alloc, &natives, text, &trace)?;
    if !has_shared_app(&boot) {
        bail!("no first application whose sessions share an instance");
    }
    let player = played(alloc, &natives, trace)?;
    let journal = journal_of(&player);
    let mut told = String::new(alloc);
    tell_group(alloc, &boot, &natives, journal, &mut told)?;
    Ok(told)
}
