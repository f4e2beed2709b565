//! Plays traces over cores, and prints what they tell.
//!
//! Standard input has the cases, each a line `case KIND NAME` and a text. That line is printed, and then what the case tells.
//!
//! - `lists`, and a trace: what comes in and goes out from one `write` or `show` to the next is served as one list, by
//!   `Machine::serve`, which these cases show. A line is told for each exit and each show, as of any trace that is played, and
//!   last how the core then stands. A show of one byte tells that too. An entry that is refused since it would read too much
//!   ends its list: `full COPIED MORE` tells how many bytes the entries before have read, and how many this one would. At one
//!   that wants for memory `memory` is told, and what is left of its list is served once more.
//! - `orders`, a line for each order, a line `trace`, and a trace of two processors: it is served in each order by a core
//!   that the processors share behind a lock, all by one thread, which these cases show. An order names, for each entry and each
//!   exit, the processor whose it is; each processor takes its items in the order of the trace. The lines of the trace are told,
//!   those of an exit with the places of its entry and its own in the history, and behind them whose the events of the core are.
//! - `sessions`, with numbers of sessions behind the name, and a trace whose boot has one application: it is played by `Player`,
//!   and the machines of these sessions are fed with the sessions' own events. For each a line `session SESSION` is told, a line of
//!   its own events, and then a line for each reply of its machine; where the session was answered otherwise, that stands
//!   behind it.
//! - `groups`, and a trace of whose boot the first application has sessions that share an instance: it is played, and the machine
//!   of their group is fed with what has happened to the group. A line of these events is told, and then a line for each reply
//!   of the machine, with the number of the session that it has opened; where the group was answered otherwise, that stands
//!   behind it.
//! - `drawn-groups`, a line `HISTORIES MOVES`, a line of words between commas, the header of a trace, a line `draw`, and a table of
//!   moves, each a line of items between semicolons: so many traces are played, each with so many moves drawn from the table, and
//!   the group of each is told as by `groups`, of which the lines are told that have something otherwise. Behind these a line for
//!   each word: `told WORD` where one of the groups has told it, and else `never WORD`.
//! - `compared`, with the number of a session or the UUID of an application behind the name, and two journals in hexadecimal
//!   digits: what they show of the session, or of the sessions of the application.
#![tactic(auto)]

// Traces, and machines on which lists are served
mod lists;
mod reading;
mod telling;

// Two processors that share a core
mod cpu;
mod pair;
mod script;
mod serving;

// Sessions and groups, and their own machines
mod comparing;
mod comparisons;
mod conditions;
mod drawn;
mod events;
mod feeding;
mod groups;
mod playing;
mod replies;

use crate::comparing::sessions_told;
use crate::comparisons::comparison_told;
use crate::drawn::drawn_told;
use crate::groups::group_told;
use crate::lists::play_text;
use crate::serving::orders_told;
use anyhow::{Context, Result, bail};
use native_tas::{Natives, program_natives};
use std::alloc::Global;
use std::io;
use std::sync::Wait;

/// What a case of this line tells.
fn told(
    rt: &impl Wait,
    alloc: Global,
    natives: &Natives,
    line: &str,
    text: &str,
) -> Result<Vec<u8>> {
    let (kind, name) = line.split_once(' ').context("reading a name")?;
    match kind {
        "lists" => play_text(alloc, natives, text.as_bytes()),
        "orders" => orders_told(rt, alloc, natives, text),
        "sessions" => sessions_told(alloc, name, text.as_bytes()),
        "groups" => Ok(group_told(alloc, text.as_bytes())?.into_bytes()),
        "drawn-groups" => drawn_told(alloc, text),
        "compared" => comparison_told(alloc, natives, name, text),
        _ => bail!("no kind of case: {kind}"),
    }
}

/// Prints the line of a case and what it tells.
fn print_case<R: Print + Wait>(rt: &R, alloc: Global, natives: &Natives, case: &str) -> Result<()> {
    let (line, text) = case.split_once('\n').context("reading a line")?;
    let told = String::from_utf8(told(rt, alloc, natives, line, text)?)?;
    print!(rt; "case {line}\n{told}").context("printing a case")
}

fn main(rt: HostRuntime) -> Result<()> {
    let alloc = rt.alloc();
    let natives = program_natives!(alloc)?;
    let input = io::read_to_string(alloc, rt.reader())?;
    for case in input.as_str().split("case ").skip(1) {
        print_case(&rt, alloc, &natives, case)?;
    }
    Ok(())
}
