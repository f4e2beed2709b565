//! From a trace to bytes.

ghost use Rattle.std.specs.Prelude.{◌≡◌, ℕ, ◌<◌, ◌^◌, ◌++◌, [], ◌∷◌, length, All, IfOk, OnOk, IsSome};
ghost use Rattle.std.specs.List.{flat_map};
ghost use Rattle.byteorder.specs.Endian.{little_bytes};
ghost use Rattle.ta_isa.specs.Spelling.{IsValid};
ghost use Rattle.trace_text.specs.Sound.{IsSound, IsSoundFill};
ghost use Rattle.trace_bin.specs.Spelling.{IsCountable, app_record, boot_record, call_bytes, counted, fill_record, item_record, key_records, register_bytes, spelling};

use crate::reading::MAGIC;
use base::NoMemory;
use byteorder::{ByteOrder, LittleEndian};
use std::alloc::Global;
use ta_isa::{App, Boot, encode_image, put_word};
use trace_text::limits::KEY_BYTES;
use trace_text::{Fill, Item, Reg, Trace};

fn put_short(out: &mut Vec<u8>, number: u16) -> Result<(), NoMemory>
    ensures { OnOk result (out.new.items ≡ out.old.items ++ little_bytes 2 number) }
{
    let mut bytes = [0; 2];
    LittleEndian::write_u16(&mut bytes, number);
    out.extend_from_slice(&bytes)?;
    Ok(())
}

pub fn put_long(out: &mut Vec<u8>, number: u64) -> Result<(), NoMemory>
    ensures { OnOk result (out.new.items ≡ out.old.items ++ little_bytes 8 number) }
{
    let mut bytes = [0; 8];
    LittleEndian::write_u64(&mut bytes, number);
    out.extend_from_slice(&bytes)?;
    Ok(())
}

/// Bytes behind their number.
#[tactic(auto, unfolding(crate::specs::Spelling::counted))]
pub fn put_counted(out: &mut Vec<u8>, bytes: &[u8]) -> Result<(), NoMemory>
    requires { length bytes.now < 2 ^ 32 }
    ensures { OnOk result (out.new.items ≡ out.old.items ++ counted bytes.now) }
{
    put_word(out, bytes.len() as u32)?;
    out.extend_from_slice(bytes)?;
    Ok(())
}

fn put_register(out: &mut Vec<u8>, reg: Reg) -> Result<(), NoMemory>
    ensures { OnOk result (out.new.items ≡ out.old.items ++ register_bytes reg) }
{
    match reg {
        Reg::Num(number) => {
            out.push(0)?;
            put_word(out, number)
        }
        Reg::Last(number) => {
            out.push(1)?;
            put_word(out, u32::from(number))
        }
    }
}

/// A tag, and an entry behind it.
fn put_call(out: &mut Vec<u8>, tag: u8, cpu: u8, steps: u32, regs: &[Reg]) -> Result<(), NoMemory>
    ensures { OnOk result (out.new.items ≡ out.old.items ++ tag ∷ call_bytes cpu steps regs.now) }
{
    out.extend_from_slice(&[tag, cpu])?;
    put_word(out, steps)?;
    for reg in regs {
        put_register(out, *reg)?;
    }
    Ok(())
}

/// A tag, and a processor and an address behind it.
fn put_place(out: &mut Vec<u8>, tag: u8, cpu: u8, addr: u64) -> Result<(), NoMemory>
    ensures { OnOk result (out.new.items ≡ out.old.items ++ tag ∷ cpu ∷ little_bytes 8 addr) }
{
    out.extend_from_slice(&[tag, cpu])?;
    put_long(out, addr)
}

/// Appends the record of a boot: its tag, how many processors and threads, and how many frames.
pub fn put_boot(out: &mut Vec<u8>, boot: &Boot) -> Result<(), NoMemory>
    ensures { OnOk result (out.new.items ≡ out.old.items ++ boot_record boot.now) }
{
    out.extend_from_slice(&[0x01, boot.cpus, boot.threads])?;
    put_short(out, boot.frames)
}

#[tactic(auto, unfolding(crate::specs::Spelling::app_record))]
fn put_app(alloc: Global, out: &mut Vec<u8>, app: &App) -> Result<(), NoMemory>
    requires { IsValid app.now.image }
    ensures { OnOk result (out.new.items ≡ out.old.items ++ app_record app.now) }
{
    let image = encode_image(alloc, &app.image)?;
    out.push(0x02)?;
    out.extend_from_slice(app.uuid.as_bytes())?;
    put_counted(out, image.as_slice())
}

#[tactic(auto, unfolding(crate::specs::Spelling::fill_record))]
fn put_fill(out: &mut Vec<u8>, fill: &Fill) -> Result<(), NoMemory>
    requires { IsSoundFill fill.now }
    ensures { OnOk result (out.new.items ≡ out.old.items ++ fill_record fill.now) }
{
    out.push(0x03)?;
    put_long(out, fill.addr)?;
    put_counted(out, fill.bytes.as_slice())
}

#[tactic(auto, unfolding(crate::specs::Spelling::item_record))]
fn put_item(out: &mut Vec<u8>, item: &Item) -> Result<(), NoMemory>
    requires { IsCountable item.now }
    ensures { OnOk result (out.new.items ≡ out.old.items ++ item_record item.now) }
{
    match item {
        Item::Smc { cpu, steps, regs } => put_call(out, 0x10, *cpu, *steps, regs),
        Item::Enter { cpu, steps, regs } => put_call(out, 0x11, *cpu, *steps, regs),
        Item::Leave { cpu } => {
            out.extend_from_slice(&[0x12, *cpu])?;
            Ok(())
        }
        Item::Write { cpu, addr, bytes } => {
            put_place(out, 0x13, *cpu, *addr)?;
            put_counted(out, bytes.as_slice())
        }
        Item::Show { cpu, addr, len } => {
            put_place(out, 0x14, *cpu, *addr)?;
            put_word(out, *len)
        }
    }
}

/// Applications, each behind the one before.
pub fn put_apps(alloc: Global, out: &mut Vec<u8>, apps: &[App]) -> Result<(), NoMemory>
    requires { All (λ app. IsValid app.image) apps.now }
    ensures { OnOk result (out.new.items ≡ out.old.items ++ flat_map app_record apps.now) }
{
    for app in apps {
        put_app(alloc, out, app)?;
    }
    Ok(())
}

/// Appends a key that isn't of zeros, which is the one of a boot without a key.
pub fn put_key(out: &mut Vec<u8>, key: &[u8; KEY_BYTES]) -> Result<(), NoMemory>
    ensures { OnOk result (out.new.items ≡ out.old.items ++ key_records key.now) }
{
    if *key == [0; KEY_BYTES] {
        return Ok(());
    }
    out.push(0x04)?;
    out.extend_from_slice(key)?;
    Ok(())
}

fn put_fills(out: &mut Vec<u8>, fills: &[Fill]) -> Result<(), NoMemory>
    requires { All IsSoundFill fills.now }
    ensures { OnOk result (out.new.items ≡ out.old.items ++ flat_map fill_record fills.now) }
{
    for fill in fills {
        put_fill(out, fill)?;
    }
    Ok(())
}

fn put_items(out: &mut Vec<u8>, items: &[Item]) -> Result<(), NoMemory>
    requires { All IsCountable items.now }
    ensures { OnOk result (out.new.items ≡ out.old.items ++ flat_map item_record items.now) }
{
    for item in items {
        put_item(out, item)?;
    }
    Ok(())
}

/// What is written of a trace that some bytes spell, and that has a boot: the boot, its applications, the fills and then the
/// items, each in their order.
pub fn write_binary(alloc: Global, trace: &Trace) -> Result<Vec<u8>, NoMemory>
    requires within_limits { IsSound [] trace.now }
    requires booted { IsSome trace.now.boot }
    ensures { IfOk result (λ bytes. bytes.items ≡ spelling trace.now) }
{
    let mut out = Vec::new(alloc);
    out.extend_from_slice(&MAGIC)?;
    if let Some(boot) = &trace.boot {
        put_boot(&mut out, boot)?;
        put_apps(alloc, &mut out, boot.apps.as_slice())?;
        put_key(&mut out, &boot.key)?;
    }
    put_fills(&mut out, trace.fills.as_slice())?;
    put_items(&mut out, trace.items.as_slice())?;
    Ok(out)
}
