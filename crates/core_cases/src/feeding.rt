//! Feeding the machine of a session, or that of a group, with what has happened to it.

ghost use Rattle.std.specs.Prelude.{◌∷◌, List, OnOk};
ghost use Rattle.group_solo.specs.Feeding as group;
ghost use Rattle.solo.specs.Feeding as session;

use anyhow::Result;
use base::NoMemory;
use group_solo::{GroupEvent, GroupReply, GroupSolo};
use own_model::{OwnEvent, OwnReply};
use solo::SoloSession;
use std::alloc::Global;

/// A machine that takes one event after the other.
pub(crate) trait EventMachine {
    type Event;

    type Reply: Drop;

    /// It can be fed with these from now on.
    ghost IsFed: { Self → List Self.Event → Type 0 };

    /// What it does at an event: its reply, if it has one.
    fn take(&mut self, alloc: Global, event: &Self::Event) -> Result<Option<Self::Reply>, NoMemory>
        requires { (events : List Self.Event) × IsFed self.old (event.now ∷ events) }
        ensures { (events : List Self.Event) → IsFed self.old (event.now ∷ events) → OnOk result (IsFed self.new events) };
}

impl EventMachine for SoloSession {
    type Event = OwnEvent;

    type Reply = OwnReply;

    ghost IsFed = { λ machine events. session.IsFed machine events };

    fn take(&mut self, alloc: Global, event: &OwnEvent) -> Result<Option<OwnReply>, NoMemory> {
        self.step(alloc, event)
    }
}

impl EventMachine for GroupSolo {
    type Event = GroupEvent;

    type Reply = GroupReply;

    ghost IsFed = { λ machine events. group.IsFed machine events };

    fn take(&mut self, alloc: Global, event: &GroupEvent) -> Result<Option<GroupReply>, NoMemory> {
        self.step(alloc, event)
    }
}

/// Adds a reply, if there is one.
fn add<R: Drop>(replies: &mut Vec<R>, told: Option<R>) -> Result<()> {
    if let Some(reply) = told {
        replies.push(reply)?;
    }
    Ok(())
}

/// Feeds a machine with what has happened to those whose it is. What it replies.
pub(crate) fn feed<M: EventMachine>(
    alloc: Global,
    machine: &mut M,
    events: &[M::Event],
) -> Result<Vec<M::Reply>>
    requires { M.IsFed machine.old events.now }
{
    let mut replies = Vec::new(alloc);
    for event in events {
        add(&mut replies, machine.take(alloc, event)?)?;
    }
    Ok(replies)
}
