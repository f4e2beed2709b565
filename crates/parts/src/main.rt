//! Shows of the parts below the kernel what no contract says: texts, formats, errors, and that calls find memory where there
//! is enough.
//!
//! Standard input has a table, of which each row prints what it tells. Its first word is its kind:
//!
//! | Row | What it tells |
//! |---|---|
//! | `trace TEXT` | the whole trace of a text, or its first fault |
//! | `hex DIGITS` | the same of a binary trace, of bytes in hexadecimal digits with blanks anywhere |
//! | `binary TEXT` | the bytes that are written of a text's trace, where reading them gives that trace again |
//! | `fronts TEXT` | of each shorter front of these bytes what it is, and how many in a row are the same |
//! | `work SEED COUNT` | the made trace of a seed and a number of calls |
//! | `asm TEXT` | whether an assembler's text is canonical, and its image, or its first fault |
//! | `asm-bytes DIGITS` | the same of a text in hexadecimal digits |
//! | `invoke NAME IMAGE FUNCTION STEPS CALL` | why an application's invoke stopped, and what it left, by grants of so many steps; CALL is `cancelled` or `-` |
//! | `object NAME CALL ..`, `unbuffered ..` | what a call on an object asks for, and leaves (`objects.rt`) |
//! | `client TRIES ROUNDS CANCEL A0 ..` | what a client's open comes to by these answers, with so many tries and RPC returns and a cancellation after so many or `-`, and how many SMCs were made, before and after a close |
//! | `message COOKIE DIGITS` | the result in a message, once a client was asked by these bytes and its buffer of this cookie |
//! | `outputs A0` | what comes back in an operation whose invoke is answered this |
//! | `source ROOMS TEXT STEP ..` | what a source over a fake reader answers at each call, with so much room |
//! | `sink TEXT STEP ..` | what a sink over a fake writer answers, and what the writer has then |
//! | `hears TEXT STEP ..` | what a port of a conversation over a fake reader hears first and next; a stroke stands for a line feed |
//! | `hmac KEY MESSAGE` | the HMAC of a message, and that by pieces of one byte, all in hexadecimal digits; none are a dash |
//! | `pages LIST COUNT ADDRESS DIGITS` | the pages of a list, where these bytes stand at an address of RAM |
//! | `copy ADDRESS SIZE DIGITS` | what is copied of a buffer at that address, where these bytes stand, and how many reads that takes |
//! | `desk VALUE ..` | what a desk with a driver of value 1 tells next, three times, after these signals |
//! | `lock WORDS WORDS` | what two threads have written into one log under a lock |
//! | `errors` | the text of each error that no other row prints |
//!
//! Each text has `|` for its line feeds. A line that begins with `##` is skipped, and one `let NAME TEXT` makes NAME stand
//! for TEXT in the rows behind it, in which the names before it may stand.
//!
//! By words of its command line it does one thing alone, whose cost is measured: `text` reads the text of a trace from
//! standard input and prints what it holds, `asm` assembles such a text, and `invoke IMAGE STEPS` runs an image's invoke by
//! one grant.
#![tactic(auto)]

mod names;

// Texts and formats
mod asm_texts;
mod error_texts;
mod hmac_vectors;
mod traces;

// Applications
mod machines;
mod objects;

// A client over a port of tests
mod client_messages;
mod client_outputs;
mod client_rounds;
mod turns;

// Ports, a lock, and calls that no program makes
mod adding;
mod fake_ports;
mod log;
mod unreached_calls;

use crate::names::{Names, add_name, spelled};
use anyhow::{Context, Result, bail};
use std::alloc::Global;
use std::env;
use std::io::Read;
use std::rt::Env;
use std::sync::Wait;
use std::thread::Threads;
use tee_storage::Handles;

/// What a row about a part that stands alone tells.
fn told_of_part<R: Threads + Wait + Sync>(
    rt: &R,
    alloc: Global,
    kind: &str,
    row: &str,
) -> Result<String> {
    match kind {
        "hmac" => hmac_vectors::told(alloc, row),
        "pages" => unreached_calls::pages_told(alloc, row),
        "copy" => unreached_calls::copy_told(alloc, row),
        "desk" => unreached_calls::desk_told(alloc, row),
        "lock" => adding::told(rt, alloc, row),
        "errors" => error_texts::told(alloc),
        _ => bail!("no kind of row: {kind}"),
    }
}

/// What a row about what is called or asked for tells.
fn told_of_calls<R: Threads + Wait + Sync>(
    rt: &R,
    alloc: Global,
    kind: &str,
    row: &str,
) -> Result<String> {
    match kind {
        "invoke" => machines::told(alloc, row),
        "client" => client_rounds::told(alloc, row),
        "message" => client_messages::told(alloc, row),
        "outputs" => client_outputs::told(alloc, row),
        "source" => fake_ports::source_told(alloc, row),
        "sink" => fake_ports::sink_told(alloc, row),
        "hears" => fake_ports::heard_told(alloc, row),
        _ => told_of_part(rt, alloc, kind, row),
    }
}

/// What a row tells.
fn told<R: Threads + Wait + Sync>(
    rt: &R,
    alloc: Global,
    handles: &mut Handles,
    row: &str,
) -> Result<String> {
    let (kind, rest) = row.split_once(' ').unwrap_or((row, ""));
    match kind {
        "trace" | "hex" | "binary" | "fronts" | "work" => traces::told(alloc, kind, rest),
        "asm" => asm_texts::told(alloc, rest.as_bytes()),
        "asm-bytes" => asm_texts::bytes_told(alloc, rest),
        "object" | "unbuffered" => objects::told(alloc, handles, row),
        _ => told_of_calls(rt, alloc, kind, rest),
    }
}

/// Prints what a row tells.
fn print_row<R: Print + Threads + Wait + Sync>(
    rt: &R,
    alloc: Global,
    names: &Names,
    handles: &mut Handles,
    row: &str,
) -> Result<()> {
    let row = spelled(alloc, row, names)?;
    let told = told(rt, alloc, handles, row.as_str())?;
    println!(rt; "{told}").context("printing a row")
}

/// Takes one line of the table.
fn take_line<R: Print + Threads + Wait + Sync>(
    rt: &R,
    alloc: Global,
    names: &mut Names,
    handles: &mut Handles,
    line: &str,
) -> Result<()> {
    if line.starts_with("##") {
        return Ok(());
    }
    match line.strip_prefix("let ") {
        Some(rest) => add_name(alloc, names, rest),
        None => print_row(rt, alloc, names, handles, line),
    }
}

/// Takes each line of the table.
fn take_table<R: Input + Print + AllocGlobal + Threads + Wait + Sync>(rt: &R) -> Result<()> {
    let alloc = rt.alloc();
    let mut names = Vec::new(alloc);
    let mut handles = Handles::new();
    for line in rt.lines(alloc) {
        take_line(rt, alloc, &mut names, &mut handles, line?.as_str())?;
    }
    Ok(())
}

/// All bytes of standard input.
fn whole_input(rt: &(impl Input + AllocGlobal)) -> Result<Vec<u8>> {
    let mut bytes = Vec::new(rt.alloc());
    rt.reader().read_to_end(&mut bytes)?;
    Ok(bytes)
}

/// What is measured by these words.
fn told_alone(rt: &(impl Input + AllocGlobal), word: &str, rest: &[String]) -> Result<String> {
    let alloc = rt.alloc();
    match (word, rest) {
        ("text", []) => traces::summary_of(alloc, whole_input(rt)?.as_slice()),
        ("asm", []) => asm_texts::told(alloc, whole_input(rt)?.as_slice()),
        ("invoke", [image, steps]) => machines::stop_told(alloc, image.as_str(), steps.as_str()),
        _ => bail!("no such words"),
    }
}

/// The words of the command line behind the program's name.
fn arguments(rt: &(impl Env + AllocGlobal)) -> Result<Vec<String>> {
    Ok(env::args(rt)?.skip(1).collect(rt.alloc())?)
}

fn number(word: &str) -> Result<u32> {
    word.parse::<u32>().ok().context("reading a number")
}

/// The bytes of a word in hexadecimal digits; none are a dash.
fn bytes_of(alloc: Global, word: &str) -> Result<Vec<u8>> {
    let digits = if word == "-" { "" } else { word };
    hex::decode(alloc, digits).context("reading bytes")
}

fn main(rt: HostRuntime) -> Result<()> {
    let words = arguments(&rt)?;
    match words.as_slice() {
        [] => take_table(&rt),
        [word, rest @ ..] => {
            let told = told_alone(&rt, word.as_str(), rest)?;
            println!(rt; "{told}").context("printing")
        }
    }
}
