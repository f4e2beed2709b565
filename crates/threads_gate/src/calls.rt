//! The calls of two processors, by the places that the lines of their blocks name.

use anyhow::{Context, Result};
use std::alloc::Global;

/// The places in the history of a call's entry and of its exit.
#[derive(Clone, Copy)]
pub struct Call {
    entry_at: u32,
    exit_at: u32,
}

impl Call {
    /// Whether each of two calls has come in before the other one goes out.
    fn overlaps(self, other: Call) -> bool {
        self.entry_at < other.exit_at && other.entry_at < self.exit_at
    }

    /// Whether this call has come in before the other one goes out.
    fn comes_before_exit_of(self, other: Call) -> bool {
        self.entry_at < other.exit_at
    }
}

fn place(word: &str) -> Result<u32> {
    word.parse::<u32>().ok().context("reading a place")
}

/// The call whose answer a line is, if it is one.
fn call_in(line: &str) -> Result<Option<Call>> {
    let Some((_, places)) = line.split_once(" at ") else {
        return Ok(None);
    };
    let (entry, exit) = places.split_once(" ").context("reading two places")?;
    Ok(Some(Call {
        entry_at: place(entry)?,
        exit_at: place(exit)?,
    }))
}

/// The calls of a processor, in its order: those whose lines begin so.
pub fn calls_of(alloc: Global, text: &str, front: &str) -> Result<Vec<Call>> {
    let mut calls = Vec::new(alloc);
    for line in text.lines() {
        if !line.starts_with(front) {
            continue;
        }
        if let Some(call) = call_in(line)? {
            calls.push(call)?;
        }
    }
    Ok(calls)
}

/// The places of all these calls, in rising order.
pub fn places_of(alloc: Global, zero: &[Call], one: &[Call]) -> Result<Vec<u32>> {
    let mut places = Vec::new(alloc);
    for call in zero.iter().chain(one.iter()) {
        places.push(call.entry_at)?;
        places.push(call.exit_at)?;
    }
    places.sort()?;
    Ok(places)
}

/// Whether the calls stand in the history as the pace holds them back: it was called behind their entries and before their exits.
/// The first calls of both then overlap, and the third one of processor 1 has come in before the second one of processor 0 goes
/// out.
pub fn were_held_inside(zero: &[Call], one: &[Call]) -> bool {
    match (zero, one) {
        ([first, second, _], [other_first, _, other_third]) => {
            first.overlaps(*other_first) && other_third.comes_before_exit_of(*second)
        }
        _ => false,
    }
}
