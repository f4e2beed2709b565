//! Playing items by lists: what comes in and goes out from one write or show to the next is served at once.
//!
//! That shows the function over lists, `Machine::serve`. The player of a trace serves each call by itself.
ghost use Rattle.std.specs.Prelude.{map};
ghost use Rattle.native_tas.specs.Table.{entries};
ghost use Rattle.trace_text.specs.Sound.{IsSound};

use crate::reading::{registers, trace_of};
use crate::telling::{tell_answers, tell_stand};
use answer_lines::push_mem;
use anyhow::{Context, Result, bail};
use core_machine::{Machine, Smc, Stopped};
use kernel_entry::Visitor;
use kernel_state::EnterRefusal;
use native_tas::Natives;
use ns_ram::in_ram;
use std::alloc::Global;
use std::io::Write;
use trace_text::{Item, Reg, Trace};

/// The entry of a processor.
fn entry(cpu: u8, steps: u32, regs: &[Reg; 8]) -> Result<Smc> {
    let regs = registers(regs)?;
    Ok(Smc::Comes(Visitor { cpu, regs, steps }))
}

/// Adds the entry of a processor to a list.
fn comes(list: &mut Vec<Smc>, cpu: u8, steps: u32, regs: &[Reg; 8]) -> Result<()> {
    list.push(entry(cpu, steps, regs)?)
        .context("adding an entry")
}

/// Adds the exit of a processor to a list.
fn leaves(list: &mut Vec<Smc>, cpu: u8) -> Result<()> {
    list.push(Smc::Leaves(cpu)).context("adding an exit")
}

/// Adds what comes in or goes out by an item to a list. Whether anything does.
fn takes(list: &mut Vec<Smc>, item: &Item) -> Result<bool> {
    match item {
        Item::Smc { cpu, steps, regs } => {
            comes(list, *cpu, *steps, regs)?;
            leaves(list, *cpu)?;
        }
        Item::Enter { cpu, steps, regs } => comes(list, *cpu, *steps, regs)?,
        Item::Leave { cpu } => leaves(list, *cpu)?,
        _ => return Ok(false),
    }
    Ok(true)
}

/// Plays one item. What comes in or goes out by it is added to a list, which is served before any other item.
fn play_item(
    alloc: Global,
    machine: &mut Machine,
    item: &Item,
    list: &mut Vec<Smc>,
    told: &mut Vec<u8>,
) -> Result<()> {
    if takes(list, item)? {
        return Ok(());
    }
    serve(alloc, machine, list.as_slice(), told)?;
    list.clear();
    write_or_show(alloc, machine, item, told)
}

/// Plays these items, and tells what comes of it.
fn play(alloc: Global, machine: &mut Machine, items: &[Item]) -> Result<Vec<u8>> {
    let mut told = Vec::new(alloc);
    let mut list = Vec::new(alloc);
    for item in items {
        play_item(alloc, machine, item, &mut list, &mut told)?;
    }
    serve(alloc, machine, list.as_slice(), &mut told)?;
    tell_stand(machine, &mut told)?;
    Ok(told)
}

/// Plays a trace on a machine of its own, and tells what comes of it.
fn play_trace(alloc: Global, natives: &Natives, trace: Trace) -> Result<Vec<u8>>
    requires { IsSound (map (λ native. native.0) (entries natives.now)) trace }
{
    let Trace { boot, fills, items } = trace;
    let Some(boot) = boot else {
        bail!("a case without a boot");
    };
    let mut machine = Machine::booted(alloc, boot, natives, fills.as_slice())?;
    play(alloc, &mut machine, items.as_slice())
}

/// Plays the trace of a text likewise, beside applications that are built in.
pub fn play_text(alloc: Global, natives: &Natives, text: &[u8]) -> Result<Vec<u8>> {
    play_trace(alloc, natives, trace_of(alloc, natives, text)?)
}

/// Serves a list. Where an entry of it wants for memory, that and what is behind it come once more.
fn serve(alloc: Global, machine: &mut Machine, list: &[Smc], told: &mut Vec<u8>) -> Result<()> {
    if let Some(served) = serve_once(alloc, machine, list, told)? {
        let rest = list.get(served..).context("less was to be served")?;
        if serve_once(alloc, machine, rest, told)?.is_some() {
            bail!("out of memory");
        }
    }
    Ok(())
}

/// Serves a list up to an entry that is refused, and tells its exits and the refusal. How much of it has come, where an
/// entry wants for memory.
fn serve_once(
    alloc: Global,
    machine: &mut Machine,
    list: &[Smc],
    told: &mut Vec<u8>,
) -> Result<Option<usize>> {
    if !machine.can_serve(alloc, list)? {
        bail!("a processor comes in or goes out twice");
    }
    let mut answers = Vec::new(alloc);
    let served = machine.serve(alloc, list, &mut answers);
    tell_answers(answers.as_slice(), told)?;
    match served {
        Ok(()) => Ok(None),
        Err(stopped) => refused(stopped, told),
    }
}

/// Tells that an entry was refused. How much of its list has come, where it wants for memory.
fn refused(stopped: Stopped, told: &mut Vec<u8>) -> Result<Option<usize>> {
    match stopped.why {
        EnterRefusal::Full { copied, more } => {
            writeln!(told, "full {copied} {more}")?;
            Ok(None)
        }
        EnterRefusal::Memory => {
            writeln!(told, "memory")?;
            Ok(Some(stopped.served))
        }
    }
}

/// Plays an item by which nothing comes in or goes out.
fn write_or_show(
    alloc: Global,
    machine: &mut Machine,
    item: &Item,
    told: &mut Vec<u8>,
) -> Result<()> {
    match item {
        Item::Write { cpu, addr, bytes } => write(machine, *cpu, *addr, bytes.as_slice()),
        Item::Show { cpu, addr, len } => show(alloc, machine, *cpu, *addr, *len, told),
        _ => Ok(()),
    }
}

/// Writes bytes to a processor's RAM.
fn write(machine: &mut Machine, cpu: u8, addr: u64, bytes: &[u8]) -> Result<()> {
    if cpu >= machine.cpus() || !in_ram(addr, bytes.len() as u64) {
        bail!("a write outside of RAM");
    }
    machine.write(cpu, addr, bytes);
    Ok(())
}

/// Tells so many bytes of a processor's RAM, and where it is one byte, how the core stands.
fn show(
    alloc: Global,
    machine: &Machine,
    cpu: u8,
    addr: u64,
    len: u32,
    told: &mut Vec<u8>,
) -> Result<()> {
    if cpu >= machine.cpus() || !in_ram(addr, u64::from(len)) {
        bail!("a show outside of RAM");
    }
    let bytes = machine.show(cpu, addr, u64::from(len));
    push_mem(alloc, told, cpu, addr, bytes)?;
    if len == 1 {
        tell_stand(machine, told)?;
    }
    Ok(())
}
