//! What each kind of line says, by its words.

ghost use Rattle.std.specs.Prelude.{◌≡◌, ◌<◌, ◌≤◌, length, map, IfOk};
ghost use Rattle.std.specs.List.{list_all};
ghost use Rattle.trace_text.specs.Forms.{bytes, decimal, hexadecimal, is_register, register};
ghost use Rattle.trace_text.specs.Judging.{Judged, Reads, item_cpu};
ghost use Rattle.trace_text.specs.Rules.{app_of, boot_rules, call_rules, cpu_rules, fill_of, key_rules, mem_rules, show_rules, size_of, ta_rules, write_rules};
ghost use Rattle.trace_text.specs.declared.item.Item.TheVariants as item;

use crate::fault::{BadKind, LineFault};
use crate::item::{Item, Reg};
use crate::limits::{
    KEY_BYTES, MAX_APPS, MAX_SHOWN, MAX_STEPS, Size, image_of, is_known, is_there, is_within,
    lies_in_ram,
};
use crate::trace::Fill;
use crate::word::{address, any_register, bytes, number, uuid};
use base::Sequence;
use std::alloc::Global;
use ta_isa::App;
use text_lines::Words;
use uuid::Uuid;

/// What a line `smc` or `enter` says.
#[derive(Drop)]
pub struct Call {
    pub cpu: u8,
    pub steps: u32,
    pub regs: [Reg; 8],
}

/// Reads the words of a line `boot`.
pub fn size_of(cpus: &[u8], threads: &[u8], frames: &[u8]) -> Result<Size, LineFault>
    ensures few { IfOk result (λ s. s.cpus ≤ 8) }
    ensures said { Judged (λ s. s) result (boot_rules cpus.now threads.now frames.now)
        (size_of cpus.now threads.now frames.now) }
{
    let cpus = number(cpus)?;
    let threads = number(threads)?;
    let frames = number(frames)?;
    if !is_within(1, 8, cpus) {
        return Err(LineFault::Broken(BadKind::Range));
    }
    if !is_within(1, 16, threads) {
        return Err(LineFault::Broken(BadKind::Range));
    }
    if !is_within(1, 1024, frames) {
        return Err(LineFault::Broken(BadKind::Range));
    }
    Ok(Size {
        cpus: cpus as u8,
        threads: threads as u8,
        frames: frames as u16,
    })
}

/// Reads the words of a line `ta`.
pub fn app_of(
    alloc: Global,
    natives: &[Uuid],
    apps: &[Uuid],
    id: &[u8],
    image: &[u8],
) -> Result<App, LineFault>
    ensures { Judged (λ a. a) result (ta_rules natives.now apps.now id.now image.now) (app_of id.now image.now) }
{
    let Some(uuid) = uuid(id) else {
        return Err(LineFault::Broken(BadKind::Uuid));
    };
    let image = bytes(alloc, image)?;
    if apps.len() >= MAX_APPS {
        return Err(LineFault::Broken(BadKind::Range));
    }
    if is_known(natives, apps, uuid) {
        return Err(LineFault::Broken(BadKind::Repeat));
    }
    let image = image_of(alloc, image.as_slice())?;
    Ok(App { uuid, image })
}

/// Reads the words of a line `mem`.
pub fn fill_of(alloc: Global, addr: &[u8], hex: &[u8]) -> Result<Fill, LineFault>
    ensures { Judged (λ f. f) result (mem_rules addr.now hex.now) (fill_of addr.now hex.now) }
{
    let addr = address(addr)?;
    let bytes = bytes(alloc, hex)?;
    if !lies_in_ram(addr, bytes.len() as u64) {
        return Err(LineFault::Broken(BadKind::Range));
    }
    Ok(Fill {
        addr,
        bytes: Sequence::of(bytes),
    })
}

/// Reads the word of a line `key`.
pub fn key_of(alloc: Global, hex: &[u8]) -> Result<[u8; KEY_BYTES], LineFault>
    ensures { Judged (λ k. k) result (key_rules hex.now) (bytes hex.now) }
{
    let bytes = bytes(alloc, hex)?;
    if bytes.len() != KEY_BYTES {
        return Err(LineFault::Broken(BadKind::Range));
    }
    let mut key = [0; KEY_BYTES];
    key.copy_from_slice(bytes.as_slice());
    Ok(key)
}

/// Reads the eight registers of a line.
fn registers_of(mut words: Words) -> Option<[Reg; 8]>
    requires { length words ≡ 8 }
    ensures { Reads result (list_all is_register words.entry) (map register words.entry) }
{
    let mut regs = [Reg::Num(0); 8];
    for reg in regs.iter_mut() {
        *reg = any_register(words.word())?;
    }
    Some(regs)
}

/// Reads the words of a line `smc` or `enter`, but for who is inside.
pub fn call_of(cpus: u8, cpu: &[u8], steps: &[u8], regs: Words) -> Result<Call, LineFault>
    requires { length regs ≡ 8 }
    ensures below { IfOk result (λ c. c.cpu < cpus) }
    ensures said { Judged (λ c. c) result (call_rules cpus cpu.now steps.now regs.entry)
        (record { cpu = decimal cpu.now; steps = decimal steps.now; regs = map register regs.entry }) }
{
    let cpu = number(cpu)?;
    let steps = number(steps)?;
    let Some(regs) = registers_of(regs) else {
        return Err(LineFault::Broken(BadKind::Number));
    };
    if !is_within(1, MAX_STEPS, steps) {
        return Err(LineFault::Broken(BadKind::Range));
    }
    if !is_there(cpus, cpu) {
        return Err(LineFault::Broken(BadKind::Cpu));
    }
    Ok(Call {
        cpu: cpu as u8,
        steps,
        regs,
    })
}

/// Reads the word of a line `leave`, but for who is inside.
pub fn cpu_of(cpus: u8, cpu: &[u8]) -> Result<u8, LineFault>
    ensures below { IfOk result (λ c. c < cpus) }
    ensures said { Judged (λ c. c) result (cpu_rules cpus cpu.now) (decimal cpu.now) }
{
    let cpu = number(cpu)?;
    if !is_there(cpus, cpu) {
        return Err(LineFault::Broken(BadKind::Cpu));
    }
    Ok(cpu as u8)
}

/// Reads the words of a line `write`.
pub fn write_of(
    alloc: Global,
    cpus: u8,
    cpu: &[u8],
    addr: &[u8],
    hex: &[u8],
) -> Result<Item, LineFault>
    ensures below { IfOk result (λ i. item_cpu i < cpus) }
    ensures said { Judged (λ i. i) result (write_rules cpus cpu.now addr.now hex.now)
        (item.Write (decimal cpu.now) (hexadecimal addr.now) (bytes hex.now)) }
{
    let cpu = number(cpu)?;
    let addr = address(addr)?;
    let bytes = bytes(alloc, hex)?;
    if !lies_in_ram(addr, bytes.len() as u64) {
        return Err(LineFault::Broken(BadKind::Range));
    }
    if !is_there(cpus, cpu) {
        return Err(LineFault::Broken(BadKind::Cpu));
    }
    Ok(Item::Write {
        cpu: cpu as u8,
        addr,
        bytes: Sequence::of(bytes),
    })
}

/// Reads the words of a line `show`.
pub fn show_of(cpus: u8, cpu: &[u8], addr: &[u8], len: &[u8]) -> Result<Item, LineFault>
    ensures below { IfOk result (λ i. item_cpu i < cpus) }
    ensures said { Judged (λ i. i) result (show_rules cpus cpu.now addr.now len.now)
        (item.Show (decimal cpu.now) (hexadecimal addr.now) (decimal len.now)) }
{
    let cpu = number(cpu)?;
    let addr = address(addr)?;
    let len = number(len)?;
    if !is_within(1, MAX_SHOWN, len) {
        return Err(LineFault::Broken(BadKind::Range));
    }
    if !lies_in_ram(addr, u64::from(len)) {
        return Err(LineFault::Broken(BadKind::Range));
    }
    if !is_there(cpus, cpu) {
        return Err(LineFault::Broken(BadKind::Cpu));
    }
    Ok(Item::Show {
        cpu: cpu as u8,
        addr,
        len,
    })
}
