//! From a boot and its events to bytes.

ghost use Rattle.std.specs.Prelude.{◌≡◌, ◌<◌, ◌≤◌, ◌^◌, ◌++◌, [], ◌∷◌, length, All, IfOk, OnOk};
ghost use Rattle.std.specs.List.{flat_map};
ghost use Rattle.byteorder.specs.Endian.{little_bytes};
ghost use Rattle.event_journal.specs.Event.{copied_by};
ghost use Rattle.event_journal.specs.Journal.{copied_bytes};
ghost use Rattle.ta_isa.specs.Boots.{IsBoot};
ghost use Rattle.trace_bin.specs.Spelling.{IsIdentified};
ghost use Rattle.journal_bytes.specs.Sound.{AreRegs, AreSoundReads, HasRegs, IsSoundJournal, IsSoundRead};
ghost use Rattle.journal_bytes.specs.Spelling.{SpellsBack, event_record, read_bytes, regs_bytes, spelling};

use base::NoMemory;
use event_journal::{Event, Journal, Read, Regs};
use std::alloc::Global;
use ta_isa::{App, Boot};
use trace_bin::records::{put_apps, put_boot, put_counted, put_key, put_long, put_word};
use trace_text::limits::KEY_BYTES;

/// The first four bytes of a journal, `OTTJ`.
pub const MAGIC: [u8; 4] = *b"OTTJ";

/// The tag of the end, which has no body.
pub const END: u8 = 0x7f;

fn put_words(out: &mut Vec<u8>, words: &[u32]) -> Result<(), NoMemory>
    ensures put { OnOk result (out.new.items ≡ out.old.items ++ flat_map (little_bytes 4) words.now) }
    ensures fit { OnOk result (All (λ word. word < 2 ^ 32) words.now) }
{
    for word in words {
        put_word(out, *word)?;
    }
    Ok(())
}

/// The registers, eight of 32 bits.
fn put_regs(out: &mut Vec<u8>, regs: &Regs) -> Result<(), NoMemory>
    ensures put { OnOk result (out.new.items ≡ out.old.items ++ regs_bytes regs.now) }
    ensures regs { OnOk result (AreRegs regs.now) }
{
    put_words(out, &regs.a)
}

#[tactic(auto, unfolding(crate::specs::Spelling::read_bytes))]
fn put_read(out: &mut Vec<u8>, read: &Read) -> Result<(), NoMemory>
    requires { IsSoundRead read.now }
    ensures { OnOk result (out.new.items ≡ out.old.items ++ read_bytes read.now) }
{
    put_long(out, read.addr)?;
    put_counted(out, read.bytes.as_slice())
}

/// Reads, each behind the one before.
fn put_reads(out: &mut Vec<u8>, reads: &[Read]) -> Result<(), NoMemory>
    requires { All IsSoundRead reads.now }
    ensures { OnOk result (out.new.items ≡ out.old.items ++ flat_map read_bytes reads.now) }
{
    for read in reads {
        put_read(out, read)?;
    }
    Ok(())
}

#[tactic(auto, unfolding(crate::specs::Spelling::event_record))]
fn put_event(out: &mut Vec<u8>, event: &Event) -> Result<(), NoMemory>
    requires each { AreSoundReads event.now }
    requires few { copied_by event.now ≤ 2 ^ 28 }
    ensures put { OnOk result (out.new.items ≡ out.old.items ++ event_record event.now) }
    ensures regs { OnOk result (HasRegs event.now) }
{
    match event {
        Event::Entry {
            cpu,
            regs,
            steps,
            reads,
        } => {
            out.extend_from_slice(&[0x20, *cpu])?;
            put_regs(out, regs)?;
            put_word(out, *steps)?;
            put_word(out, reads.len() as u32)?;
            put_reads(out, reads.as_slice())
        }
        Event::Exit { cpu, regs } => {
            out.extend_from_slice(&[0x21, *cpu])?;
            put_regs(out, regs)
        }
    }
}

/// Events, each behind the one before.
fn put_events(out: &mut Vec<u8>, events: &[Event]) -> Result<(), NoMemory>
    requires each { All AreSoundReads events.now }
    requires few { copied_bytes events.now ≤ 2 ^ 28 }
    ensures put { OnOk result (out.new.items ≡ out.old.items ++ flat_map event_record events.now) }
    ensures regs { OnOk result (All HasRegs events.now) }
{
    for event in events {
        put_event(out, event)?;
    }
    Ok(())
}

/// What the type of a UUID says.
fn has_sixteen_bytes(uuid: &[u8; 16])
    ensures { length uuid.now ≡ 16 }
{}

/// What the type of a key says.
fn has_key(key: &[u8; KEY_BYTES])
    ensures { length key.now ≡ 32 }
{}

/// The UUID of each application has its sixteen bytes. This walk tells only that, and writes nothing.
fn are_identified(apps: &[App])
    ensures { All IsIdentified apps.now }
{
    for app in apps {
        has_sixteen_bytes(app.uuid.as_bytes());
    }
}

/// What is written of a boot and its events: the boot, its applications, its key where that isn't of zeros, and the events, each
/// in their order, and an end.
///
/// It spells them, whatever stands behind it ([`crate::written_is_read`]): so [`crate::read_journal`] gives them back where these are
/// at most 2^28 bytes and no built-in application has one of their UUIDs, or memory runs out.
pub fn write_journal(alloc: Global, boot: &Boot, journal: &Journal) -> Result<Vec<u8>, NoMemory>
    requires boot { IsBoot boot.now }
    requires journal { IsSoundJournal boot.now.cpus journal.now.events }
    ensures bytes { IfOk result (λ bytes. bytes.items ≡ spelling boot.now journal.now.events) }
    // They spell the boot and the events: its key, the UUIDs and their registers have the sizes that are read.
    ensures spelled { IfOk result (λ bytes. SpellsBack boot.now journal.now.events bytes.items) }
{
    let events = journal.as_slice();
    let apps = boot.apps.as_slice();
    are_identified(apps);
    has_key(&boot.key);
    let mut out = Vec::new(alloc);
    out.extend_from_slice(&MAGIC)?;
    put_boot(&mut out, boot)?;
    put_apps(alloc, &mut out, apps)?;
    put_key(&mut out, &boot.key)?;
    put_events(&mut out, events)?;
    out.push(END)?;
    Ok(out)
}
