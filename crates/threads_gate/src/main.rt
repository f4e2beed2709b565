//! Plays a script on threads whose two processors hold each other back: each waits, between the entry and the exit of its
//! calls, until the other has come so far. No order in which one processor plays after the other lets both go on, nor does
//! one in which a call is done from its entry to its exit while the other processor stands still.
//!
//! Each processor has to come to where the other waits for it, and the places of their answers are compared with those of
//! one that waits inside its calls: behind their entries, and before their exits. Then prints the status, the places of all
//! answers, and of each processor how often the pace was called for its first call, its second, its third and any other
//! number.
#![tactic(auto)]

mod calls;
mod meeting;

use crate::calls::{Call, calls_of, places_of, were_held_inside};
use crate::meeting::Meeting;
use anyhow::{Context, Result, bail};
use native_tas::Natives;
use ports::{MemSink, MemSource};
use std::alloc::Global;
use std::sync::Wait;
use std::thread::Threads;
use trace_runner::{AtEnd, Status, run};

/// Each of two processors asks three times who the core is.
const SCRIPT: &str = "boot 2 1 1\n\
    smc 0 1 bf00ff01 0 0 0 0 0 0 0\n\
    smc 0 1 bf00ff01 0 0 0 0 0 0 0\n\
    smc 0 1 bf00ff01 0 0 0 0 0 0 0\n\
    smc 1 1 bf00ff01 0 0 0 0 0 0 0\n\
    smc 1 1 bf00ff01 0 0 0 0 0 0 0\n\
    smc 1 1 bf00ff01 0 0 0 0 0 0 0\n";

/// Plays the script, and puts what it prints into the sink.
fn play_script<R: Threads + Wait + Sync>(
    rt: &R,
    alloc: Global,
    meeting: &Meeting,
    sink: &mut MemSink,
) -> Result<Status> {
    let mut words = Vec::new(alloc);
    words.push(String::from_str(alloc, "threads")?)?;
    let script = Vec::from_slice(alloc, SCRIPT.as_bytes())?;
    let mut source = MemSource::new(script, Vec::new(alloc));
    let natives = Natives::new(alloc);
    Ok(run(
        rt,
        alloc,
        words.as_slice(),
        &mut source,
        sink,
        &natives,
        meeting,
        AtEnd::Free,
    ))
}

/// Prints the places of all these calls.
fn print_places(rt: &impl Print, alloc: Global, zero: &[Call], one: &[Call]) -> Result<()> {
    print!(rt; "places")?;
    for place in places_of(alloc, zero, one)?.as_slice() {
        print!(rt; " {place}")?;
    }
    println!(rt; "").context("printing places")
}

/// Prints how often the pace was called for a processor.
fn print_counts(rt: &impl Print, meeting: &Meeting, cpu: u8) -> Result<()> {
    let counts = meeting.counts(cpu);
    let (first, second, third) = (counts.count(1), counts.count(2), counts.count(3));
    let others = counts.count(0);
    println!(rt; "pace of {cpu}: {first} {second} {third}, others {others}").context(
        "printing counts",
    )
}

fn main(rt: HostRuntime) -> Result<()> {
    let alloc = rt.alloc();
    let meeting = Meeting::new();
    let mut sink = MemSink::new(alloc, Vec::new(alloc));
    let status = play_script(&rt, alloc, &meeting, &mut sink)?;
    println!(rt; "status {}", status.number())?;
    if !meeting.has_met() {
        bail!("a processor did not come to where the other waits for it, or waited in vain");
    }
    let text = String::from_utf8_lossy(alloc, sink.bytes())?;
    let zero = calls_of(alloc, text.as_str(), "ret 0 ")?;
    let one = calls_of(alloc, text.as_str(), "ret 1 ")?;
    if !were_held_inside(zero.as_slice(), one.as_slice()) {
        bail!("a processor waited before it came in, or once it had gone out");
    }
    print_places(&rt, alloc, zero.as_slice(), one.as_slice())?;
    print_counts(&rt, &meeting, 0)?;
    print_counts(&rt, &meeting, 1)
}
