//! Events.

ghost use Rattle.std.specs.Prelude.{◌≡◌, ◌++◌, ◌^◌, ◌<◌, ◌≤◌, OnOk, slice_get, true};
ghost use Rattle.event_journal.specs.Event.{copied_by};
ghost use Rattle.live_play.specs.State.{entry_line, event_line, event_lines, exit_line, text_if};

use answer_lines::{push_numbered, push_registers};
use event_journal::{Event, Journal};
use event_log::Log;
use smc_abi::Regs;
use std::alloc::AllocError;

/// Appends the line of an entry that has read so many bytes.
fn push_entry(
    text: &mut Vec<u8>,
    cpu: u8,
    steps: u32,
    regs: &Regs,
    copied: u64,
) -> Result<(), AllocError>
    ensures { OnOk result (text.new.items ≡ text.old.items ++ entry_line cpu steps regs.now.a copied) }
{
    push_numbered(text, b"entry ", u64::from(cpu))?;
    push_numbered(text, b" ", u64::from(steps))?;
    push_registers(text, regs)?;
    push_numbered(text, b" ", copied)?;
    text.push(b'\n')?;
    Ok(())
}

/// Appends the line of an exit.
fn push_exit(text: &mut Vec<u8>, cpu: u8, regs: &Regs) -> Result<(), AllocError>
    ensures { OnOk result (text.new.items ≡ text.old.items ++ exit_line cpu regs.now.a) }
{
    push_numbered(text, b"exit ", u64::from(cpu))?;
    push_registers(text, regs)?;
    text.push(b'\n')?;
    Ok(())
}

/// Appends the line of an event.
fn push_event(text: &mut Vec<u8>, event: &Event) -> Result<(), AllocError>
    requires { copied_by event.now < 2 ^ 64 }
    ensures { OnOk result (text.new.items ≡ text.old.items ++ event_line event.now) }
{
    match event {
        Event::Entry {
            cpu,
            regs,
            steps,
            ..
        } => push_entry(text, *cpu, *steps, regs, event.copied()),
        Event::Exit { cpu, regs } => push_exit(text, *cpu, regs),
    }
}

/// Appends the line of the event of this number, where it has come.
fn push_event_at(text: &mut Vec<u8>, journal: &Journal, at: u64) -> Result<(), AllocError>
    ensures { OnOk result (text.new.items ≡ text.old.items ++ text_if event_line (slice_get journal.now.events at)) }
{
    // It has read no more than all have.
    let _all = journal.copied();
    let Some(event) = journal.get(at) else {
        return Ok(());
    };
    push_event(text, event)
}

/// Appends the lines of so many events from one on, as many of them as there are.
fn push_events(
    text: &mut Vec<u8>,
    journal: &Journal,
    from: u32,
    count: u32,
) -> Result<(), AllocError>
    ensures { OnOk result (text.new.items ≡ text.old.items ++ event_lines journal.now.events from count) }
{
    for number in 0..count {
        push_event_at(text, journal, u64::from(from) + u64::from(number))?;
    }
    Ok(())
}

/// Appends the lines of so many events of a log that keeps them, from one on, as many of them as there are.
pub(crate) fn push_kept(
    text: &mut Vec<u8>,
    log: &Log,
    from: u32,
    count: u32,
) -> Result<(), AllocError>
    requires { log.now.keeps ≡ true }
    ensures { OnOk result (text.new.items ≡ text.old.items ++ event_lines log.now.events from count) }
{
    match log.journal() {
        Some(journal) => push_events(text, journal, from, count),
        None => unreachable!(),
    }
}
