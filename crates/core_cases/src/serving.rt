//! A trace, served by a shared core from one thread, in an order of its processors.
//!
//! That shows a core behind a lock, whose processors come and go in any order: each entry and each exit is a turn of its own,
//! where the player of a trace takes its items one after the other.
ghost use Rattle.std.specs.Prelude.{◌≡◌, ◌∷◌, [], All, map};
ghost use Rattle.core_lock.specs.Passes.{AreUnused, number};
ghost use Rattle.kernel_state.specs.Meaning.{booted_of, events_of, terms_of};
ghost use Rattle.kernel_state.specs.Terms.{kept_terms};
ghost use Rattle.native_tas.specs.Table.{entries};
ghost use Rattle.normal_cpus.specs.Sharing.{AreCpusOf, boot_of};
ghost use Rattle.core_cases.specs.Cpus.{IsPairOf};
ghost use Rattle.trace_text.specs.Sound.{IsSound, IsSoundFill};

use crate::pair::Pair;
use crate::reading::{registers, trace_of};
use crate::script::{Half, Turn, cpu_of, ordered, takes_turns};
use answer_lines::{push_mem, push_numbered, push_registers};
use anyhow::{Context, Error, Result, bail};
use core_at_work::core_of;
use core_machine::first_lane;
use event_journal::{Event, Journal};
use kernel_state::Core;
use native_tas::Natives;
use normal_cpus::{CpuAnswer, CpuPass, SharedCore, share};
use ns_ram::{Lane, in_ram};
use std::alloc::Global;
use std::io::Write;
use std::sync::Wait;
use trace_text::{Fill, Item, Trace};

/// Tells an exit, with the places of its entry and its own in the history.
fn tell_exit(cpu: u8, answer: &CpuAnswer, told: &mut Vec<u8>) -> Result<()> {
    push_numbered(told, b"ret ", u64::from(cpu))?;
    push_registers(told, &answer.regs)?;
    writeln!(told, " at {} {}", answer.entry_at, answer.exit_at)?;
    Ok(())
}

/// Tells bytes of a processor's RAM.
fn show(
    alloc: Global,
    pair: &Pair,
    cpu: u8,
    addr: u64,
    len: u32,
    told: &mut Vec<u8>,
) -> Result<()> {
    let lane = pair.lane(cpu)?;
    if !in_ram(addr, u64::from(len)) {
        bail!("a show outside of RAM");
    }
    Ok(push_mem(alloc, told, cpu, addr, lane.at(addr, u64::from(len)))?)
}

/// Does what stands between two turns of a processor.
fn write_or_show(
    alloc: Global,
    shared: &SharedCore,
    pair: &mut Pair,
    item: &Item,
    told: &mut Vec<u8>,
) -> Result<()>
    requires { IsPairOf shared.now pair.old }
    ensures { IsPairOf shared.now pair.new }
{
    match item {
        Item::Write { cpu, addr, bytes } => pair.write(shared, *cpu, *addr, bytes.as_slice()),
        Item::Show { cpu, addr, len } => show(alloc, pair, *cpu, *addr, *len, told),
        Item::Smc { .. } | Item::Enter { .. } | Item::Leave { .. } => Ok(()),
    }
}

/// Does what a processor does at the front of these items, up to its next turn.
fn between_turns(
    alloc: Global,
    shared: &SharedCore,
    pair: &mut Pair,
    cpu: u8,
    items: &[Item],
    told: &mut Vec<u8>,
) -> Result<()>
    requires { IsPairOf shared.now pair.old }
    ensures { IsPairOf shared.now pair.new }
{
    for item in items {
        if cpu_of(item) != cpu {
            continue;
        }
        if takes_turns(item) {
            break;
        }
        write_or_show(alloc, shared, pair, item, told)?;
    }
    Ok(())
}

/// A processor comes in by its item, or does its steps and goes out.
fn take_turn(
    rt: &impl Wait,
    alloc: Global,
    shared: &SharedCore,
    pair: &mut Pair,
    item: &Item,
    half: Half,
    told: &mut Vec<u8>,
) -> Result<()>
    requires { IsPairOf shared.now pair.old }
    ensures { IsPairOf shared.now pair.new }
{
    match (half, item) {
        (Half::Comes, Item::Smc { cpu, steps, regs } | Item::Enter { cpu, steps, regs }) => {
            let regs = registers(regs)?;
            pair.enter(rt, alloc, shared, *cpu, &regs, *steps)
        }
        (Half::Goes, _) => {
            let cpu = cpu_of(item);
            let answer = pair.leave(rt, shared, cpu)?;
            tell_exit(cpu, &answer, told)
        }
        _ => bail!("a processor comes in by no entry"),
    }
}

/// Takes a turn, and does what its processor does behind it.
fn serve_turn(
    rt: &impl Wait,
    alloc: Global,
    shared: &SharedCore,
    pair: &mut Pair,
    items: &[Item],
    turn: Turn,
    told: &mut Vec<u8>,
) -> Result<()>
    requires { IsPairOf shared.now pair.old }
    ensures { IsPairOf shared.now pair.new }
{
    let item = items.get(turn.item).context("a turn of no item")?;
    take_turn(rt, alloc, shared, pair, item, turn.half, told)?;
    if matches!((turn.half, item), (Half::Comes, Item::Smc { .. })) {
        return Ok(());
    }
    let behind = items.get(turn.item + 1..).unwrap_or(&[]);
    between_turns(alloc, shared, pair, cpu_of(item), behind, told)
}

/// Serves all turns.
fn serve_turns(
    rt: &impl Wait,
    alloc: Global,
    shared: &SharedCore,
    pair: &mut Pair,
    items: &[Item],
    turns: &[Turn],
    told: &mut Vec<u8>,
) -> Result<()>
    requires { IsPairOf shared.now pair.old }
    ensures { IsPairOf shared.now pair.new }
{
    between_turns(alloc, shared, pair, 0, items, told)?;
    between_turns(alloc, shared, pair, 1, items, told)?;
    for turn in turns {
        serve_turn(rt, alloc, shared, pair, items, *turn, told)?;
    }
    Ok(())
}

/// Tells whose the events are, in their order: the entries by `+`, and the exits by `-`.
fn tell_events(journal: &Journal, told: &mut Vec<u8>) -> Result<()> {
    write!(told, "events")?;
    for place in 0..journal.len() {
        match journal.get(place) {
            Some(Event::Entry { cpu, .. }) => write!(told, " {cpu}+")?,
            Some(Event::Exit { cpu, .. }) => write!(told, " {cpu}-")?,
            None => bail!("a place behind the last event"),
        }
    }
    writeln!(told)?;
    Ok(())
}

/// Serves all turns on a shared core, and tells whose its events are once all passes are back.
fn serve_shared(
    rt: &impl Wait,
    alloc: Global,
    shared: SharedCore,
    passes: Vec<CpuPass>,
    lanes: (Lane, Lane),
    items: &[Item],
    turns: &[Turn],
    told: &mut Vec<u8>,
) -> Result<()>
    requires numbers { map number passes.items ≡ 0 ∷ 1 ∷ [] }
    requires own { AreCpusOf shared passes.items × AreUnused passes.items }
    requires count { (boot_of shared).cpus ≡ 2 }
{
    let (mut pair, room) = Pair::new(&shared, passes, lanes.0, lanes.1);
    let served = serve_turns(rt, alloc, &shared, &mut pair, items, turns, told);
    let core = pair.close(shared, room);
    match served {
        Ok(()) => tell_events(core.journal(), told),
        Err(fault) => Err(fault),
    }
}

/// Serves the items of a trace on a core of two processors that is shared.
fn serve_items(
    rt: &impl Wait,
    alloc: Global,
    core: Core,
    lanes: (Lane, Lane),
    items: &[Item],
    turns: &[Turn],
    told: &mut Vec<u8>,
) -> Result<()>
    requires events { events_of core ≡ [] }
    requires kept { terms_of core ≡ kept_terms }
    requires cpus { (booted_of core).cpus ≡ 2 }
{
    match share(alloc, core) {
        Ok((shared, passes)) => serve_shared(rt, alloc, shared, passes, lanes, items, turns, told),
        Err(_) => Err(Error::msg("no memory to share a core")),
    }
}

/// The RAM that each of two processors sees at first.
fn two_lanes(alloc: Global, fills: &[Fill]) -> Result<(Lane, Lane)>
    requires { All IsSoundFill fills.now }
{
    let one = first_lane(alloc, fills)?;
    let two = first_lane(alloc, fills)?;
    Ok((one, two))
}

/// Serves a trace in this order. Tells its lines, and last whose the events of the core are, once all passes are back.
fn serve_trace(
    rt: &impl Wait,
    alloc: Global,
    natives: &Natives,
    trace: Trace,
    order: &str,
    told: &mut Vec<u8>,
) -> Result<()>
    requires { IsSound (map (λ native. native.0) (entries natives.now)) trace }
{
    let Trace { boot, fills, items } = trace;
    let Some(boot) = boot else {
        bail!("a case without a boot");
    };
    if boot.cpus != 2 {
        bail!("a case of other than two processors");
    }
    let turns = ordered(alloc, items.as_slice(), order)?;
    let lanes = two_lanes(alloc, fills.as_slice())?;
    let core = core_of(alloc, boot, natives)?;
    serve_items(
        rt,
        alloc,
        core,
        lanes,
        items.as_slice(),
        turns.as_slice(),
        told,
    )
}

/// What the trace of a case tells in each of its orders, which stand before it.
pub fn orders_told(
    rt: &impl Wait,
    alloc: Global,
    natives: &Natives,
    case: &str,
) -> Result<Vec<u8>> {
    let (orders, text) = case.split_once("trace\n").context("reading orders")?;
    let mut told = Vec::new(alloc);
    for order in orders.lines() {
        writeln!(told, "order {order}")?;
        let trace = trace_of(alloc, natives, text.as_bytes())?;
        serve_trace(rt, alloc, natives, trace, order, &mut told)?;
    }
    Ok(told)
}
