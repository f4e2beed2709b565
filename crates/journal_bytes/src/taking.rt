//! Taking records one after the other.

ghost use Rattle.std.specs.Prelude.{◌≡◌, ◌+◌, ◌^◌, ◌<◌, ◌≤◌, [], length, IfOk, OnOk};
ghost use Rattle.event_journal.specs.Event.{copied_by};
ghost use Rattle.event_journal.specs.Journal.{copied_bytes};
ghost use Rattle.journal_bytes.specs.Record.{behind};
ghost use Rattle.journal_bytes.specs.Recording.{HasNoItem, journal_so_far};
ghost use Rattle.journal_bytes.specs.Rules.{added, after_record, behind_record, record_rules, rules_in, with_event};
ghost use Rattle.journal_bytes.specs.Taking.{IsPut};
ghost use Rattle.trace_bin.specs.Taking.{IsTakenTo};
ghost use Rattle.journal_bytes.specs.declared.record_kind.RecordKind.TheVariants as kind;

use crate::body::{are_reads, regs_in, take_reads};
use crate::record_kind::RecordKind;
use crate::recording::Recording;
use event_journal::{Event, Reads};
use std::alloc::Global;
use trace_bin::records::{
    RecordKind as HeaderKind, body_len, take_boot, take_key, take_ta, word_at,
};
use trace_text::limits::{MAX_STEPS, is_there, is_within};
use trace_text::{BadKind, LineFault};
use uuid::Uuid;

/// How many bytes of an application's body have their place; its image stands behind them.
const TA_LEN: usize = 20;

/// How many bytes of an entry's body have their place; its reads stand behind them.
const ENTRY_LEN: usize = 41;

/// How many bytes the body of an exit has.
const EXIT_LEN: usize = 33;

/// Writes an event behind the others.
fn push_event(recording: &mut Recording, event: Event) -> Result<(), LineFault>
    requires { copied_bytes recording.old.events.events + copied_by event < 2 ^ 64 }
    ensures put { IsPut result (with_event (journal_so_far recording.old) event) (journal_so_far recording.new) }
    ensures header { OnOk result (recording.new.header ≡ recording.old.header) }
{
    let Ok(()) = recording.events.reserve(1) else {
        return Err(LineFault::NoRoom);
    };
    recording.events.push(event);
    Ok(())
}

/// The record of a boot.
#[tactic(auto, unfolding(crate::specs::Record::is_whole, crate::specs::Record::behind, crate::specs::Rules::rules_of, crate::specs::Rules::added))]
fn take_boot_record<'a>(recording: &mut Recording, body: &'a [u8]) -> Result<&'a [u8], LineFault>
    requires { HasNoItem recording.old }
    ensures taken { IsTakenTo result (rules_in kind.Boot [] (journal_so_far recording.old) body.now) (added kind.Boot (journal_so_far recording.old) body.now) (journal_so_far recording.new) }
    ensures rest { IfOk result (λ rest. rest.now ≡ behind kind.Boot body.now) }
    ensures header { OnOk result (HasNoItem recording.new) }
{
    let Some(len) = body_len(HeaderKind::Boot, body) else {
        return Err(LineFault::Broken(BadKind::Cut));
    };
    take_boot(&mut recording.header, body)?;
    Ok(&body[len..])
}

/// The record of an application, which stands in front of all events.
#[tactic(auto, unfolding(crate::specs::Record::is_whole, crate::specs::Record::behind, crate::specs::Rules::rules_of, crate::specs::Rules::added))]
fn take_ta_record<'a>(
    alloc: Global,
    natives: &[Uuid],
    recording: &mut Recording,
    body: &'a [u8],
) -> Result<&'a [u8], LineFault>
    requires { HasNoItem recording.old }
    ensures taken { IsTakenTo result (rules_in kind.Ta natives.now (journal_so_far recording.old) body.now) (added kind.Ta (journal_so_far recording.old) body.now) (journal_so_far recording.new) }
    ensures rest { IfOk result (λ rest. rest.now ≡ behind kind.Ta body.now) }
    ensures header { OnOk result (HasNoItem recording.new) }
{
    let Some(len) = body_len(HeaderKind::Ta, body) else {
        return Err(LineFault::Broken(BadKind::Cut));
    };
    if !recording.events.is_empty() {
        return Err(LineFault::Broken(BadKind::Place));
    }
    take_ta(
        alloc,
        natives,
        &mut recording.header,
        body,
        &body[TA_LEN..len],
    )?;
    Ok(&body[len..])
}

/// The record of a key, which stands in front of all events.
#[tactic(auto, unfolding(crate::specs::Record::is_whole, crate::specs::Record::behind, crate::specs::Rules::rules_of, crate::specs::Rules::added))]
fn take_key_record<'a>(recording: &mut Recording, body: &'a [u8]) -> Result<&'a [u8], LineFault>
    requires { HasNoItem recording.old }
    ensures taken { IsTakenTo result (rules_in kind.Key [] (journal_so_far recording.old) body.now) (added kind.Key (journal_so_far recording.old) body.now) (journal_so_far recording.new) }
    ensures rest { IfOk result (λ rest. rest.now ≡ behind kind.Key body.now) }
    ensures header { OnOk result (HasNoItem recording.new) }
{
    let Some(len) = body_len(HeaderKind::Key, body) else {
        return Err(LineFault::Broken(BadKind::Cut));
    };
    if !recording.events.is_empty() {
        return Err(LineFault::Broken(BadKind::Place));
    }
    take_key(&mut recording.header, body)?;
    Ok(&body[len..])
}

/// The record of an entry.
#[tactic(auto, unfolding(crate::specs::Record::is_whole, crate::specs::Record::behind, crate::specs::Record::listed_in, crate::specs::Rules::rules_of, crate::specs::Rules::added))]
fn take_entry<'a>(
    alloc: Global,
    recording: &mut Recording,
    body: &'a [u8],
) -> Result<&'a [u8], LineFault>
    requires header { HasNoItem recording.old }
    requires few { copied_bytes recording.old.events.events + length body.now ≤ 2 ^ 28 }
    ensures taken { IsTakenTo result (rules_in kind.Entry [] (journal_so_far recording.old) body.now) (added kind.Entry (journal_so_far recording.old) body.now) (journal_so_far recording.new) }
    ensures rest { IfOk result (λ rest. rest.now ≡ behind kind.Entry body.now) }
    ensures header { OnOk result (HasNoItem recording.new) }
{
    if body.len() < ENTRY_LEN {
        return Err(LineFault::Broken(BadKind::Cut));
    }
    let mut reads = Vec::new(alloc);
    let rest = match take_reads(alloc, word_at(body, 37), &body[ENTRY_LEN..], &mut reads) {
        Ok(rest) => rest,
        Err(fault) => return Err(fault),
    };
    let Some(cpus) = recording.header.cpus() else {
        return Err(LineFault::Broken(BadKind::Place));
    };
    let steps = word_at(body, 33);
    if !is_within(1, MAX_STEPS, steps) {
        return Err(LineFault::Broken(BadKind::Range));
    }
    if !are_reads(reads.as_slice()) {
        return Err(LineFault::Broken(BadKind::Range));
    }
    let cpu = body[0];
    if !is_there(cpus, u32::from(cpu)) {
        return Err(LineFault::Broken(BadKind::Cpu));
    }
    let regs = regs_in(body);
    push_event(
        recording,
        Event::Entry {
            cpu,
            regs,
            steps,
            reads: Reads::of(reads),
        },
    )?;
    Ok(rest)
}

/// The record of an exit.
#[tactic(auto, unfolding(crate::specs::Record::is_whole, crate::specs::Record::behind, crate::specs::Rules::rules_of, crate::specs::Rules::added))]
fn take_exit<'a>(recording: &mut Recording, body: &'a [u8]) -> Result<&'a [u8], LineFault>
    requires header { HasNoItem recording.old }
    requires few { copied_bytes recording.old.events.events + length body.now ≤ 2 ^ 28 }
    ensures taken { IsTakenTo result (rules_in kind.Exit [] (journal_so_far recording.old) body.now) (added kind.Exit (journal_so_far recording.old) body.now) (journal_so_far recording.new) }
    ensures rest { IfOk result (λ rest. rest.now ≡ behind kind.Exit body.now) }
    ensures header { OnOk result (HasNoItem recording.new) }
{
    if body.len() < EXIT_LEN {
        return Err(LineFault::Broken(BadKind::Cut));
    }
    let Some(cpus) = recording.header.cpus() else {
        return Err(LineFault::Broken(BadKind::Place));
    };
    let cpu = body[0];
    if !is_there(cpus, u32::from(cpu)) {
        return Err(LineFault::Broken(BadKind::Cpu));
    }
    let regs = regs_in(body);
    push_event(recording, Event::Exit { cpu, regs })?;
    Ok(&body[EXIT_LEN..])
}

/// A record of this kind, by what stands behind its tag.
#[tactic(auto, unfolding(crate::specs::Rules::rules_of))]
fn take_body<'a>(
    alloc: Global,
    natives: &[Uuid],
    recording: &mut Recording,
    kind: RecordKind,
    body: &'a [u8],
) -> Result<&'a [u8], LineFault>
    requires header { HasNoItem recording.old }
    requires few { copied_bytes recording.old.events.events + length body.now ≤ 2 ^ 28 }
    ensures taken { IsTakenTo result (rules_in kind natives.now (journal_so_far recording.old) body.now) (added kind (journal_so_far recording.old) body.now) (journal_so_far recording.new) }
    ensures rest { IfOk result (λ rest. rest.now ≡ behind kind body.now) }
    ensures header { OnOk result (HasNoItem recording.new) }
{
    match kind {
        RecordKind::Boot => take_boot_record(recording, body),
        RecordKind::Ta => take_ta_record(alloc, natives, recording, body),
        RecordKind::Key => take_key_record(recording, body),
        RecordKind::Entry => take_entry(alloc, recording, body),
        RecordKind::Exit => take_exit(recording, body),
    }
}

/// Takes the record in front, and gives what stands behind it.
#[tactic(auto, unfolding(crate::specs::Rules::record_rules, crate::specs::Rules::after_record, crate::specs::Rules::behind_record))]
pub fn take_record<'a>(
    alloc: Global,
    natives: &[Uuid],
    recording: &mut Recording,
    bytes: &'a [u8],
) -> Result<&'a [u8], LineFault>
    requires some { 0 < length bytes.now }
    requires header { HasNoItem recording.old }
    requires few { copied_bytes recording.old.events.events + length bytes.now ≤ 2 ^ 28 }
    ensures taken { IsTakenTo result (record_rules natives.now (journal_so_far recording.old) bytes.now) (after_record (journal_so_far recording.old) bytes.now) (journal_so_far recording.new) }
    ensures rest { IfOk result (λ rest. rest.now ≡ behind_record bytes.now) }
    ensures header { OnOk result (HasNoItem recording.new) }
{
    let Some(kind) = RecordKind::tagged(bytes[0]) else {
        return Err(LineFault::Broken(BadKind::Item));
    };
    take_body(alloc, natives, recording, kind, &bytes[1..])
}
