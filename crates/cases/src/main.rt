//! Runs worked cases from standard input through the top call, over ports in memory. Prints the name of each
//! case and `ok`, or what differs from the status and the output that the case says.
//!
//! A case is lines: `case NAME`, `words W..`, the bytes of the input after a line `input` and those of the
//! output after a line `output`, and last `status N`, at which it runs. Bytes are given by lines `|TEXT` (the
//! text and a line feed), `=TEXT` (the text alone), `<FILE` (those of a file, whose path is relative to the folder
//! that the program runs in), `hex HEX` (those of hexadecimal digits), `lines N TEXT` (N lines of the text),
//! `comment N` (a comment line of N bytes), `zeros N` (N zeros) and `repeat AT N` (those from place AT on stand there N times
//! in all).
//! `take N` and `put N` make call N of the source or the sink fail, counted from 0. `again NAME` begins a case with
//! the words and the input of the one before, `by_threads NAME` one with that input, the word `threads` and the block of the
//! output before, which is that of one processor, and `by_audit NAME` one with the word `audit` and the journal that the word `record`
//! writes of that input. `cut FIRST LAST` makes a case run once with each number of bytes of its input from the first to the last.
//! `change AT OLD NEW` has other bytes, as many and hexadecimal, stand in the input from a place on, and `swap A B C` puts its bytes
//! from A to B behind those from B to C, for this case alone. A line that begins with `#` says why the output is what it is.
#![tactic(auto)]

mod case;

use anyhow::{Context, Result, bail};
use case::Case;
use native_tas::{DIGEST_UUID, MAX_NATIVES, Native, Natives, Relation, digest, program_natives};
use std::alloc::Global;
use std::fs;
use std::io::{BufRead, BufReader};
use std::rt::Files;
use std::sync::Wait;
use std::thread::Threads;
use uuid::Uuid;

/// Adds the bytes of a file.
fn push_file(rt: &(impl Files + AllocGlobal), case: &mut Case, path: &str) -> Result<()> {
    let bytes = fs::read(rt, path).context("reading a file")?;
    case.push_bytes(bytes.as_slice())?;
    Ok(())
}

/// Adds the bytes that a line gives as they are or from a file, and says whether it does.
fn takes_bytes(rt: &(impl Files + AllocGlobal), case: &mut Case, line: &str) -> Result<bool> {
    if let Some(text) = line.strip_prefix('|') {
        case.push_lines(1, text)?;
    } else if let Some(text) = line.strip_prefix('=') {
        case.push_bytes(text.as_bytes())?;
    } else if let Some(path) = line.strip_prefix('<') {
        push_file(rt, case, path)?;
    } else {
        return Ok(false);
    }
    Ok(true)
}

/// Takes a line that begins a case, gives its words, or says which bytes come, and says whether it does.
fn begins(alloc: Global, case: &mut Case, word: &str, rest: &str) -> Result<bool> {
    match word {
        "case" => *case = Case::new(alloc, rest)?,
        "again" => case.begin_again(alloc, rest)?,
        "by_threads" => case.begin_by_threads(alloc, rest)?,
        "words" => case.push_words(alloc, rest)?,
        "input" => case.begin_input(),
        "output" => case.begin_output(),
        _ => return Ok(false),
    }
    Ok(true)
}

/// Takes a line that gives bytes otherwise, and says whether it does.
fn takes_counts(alloc: Global, case: &mut Case, word: &str, rest: &str) -> Result<bool> {
    match word {
        "hex" => push_digits(alloc, case, rest)?,
        "comment" => case.push_comment(number(rest)?)?,
        "lines" => push_lines(case, rest)?,
        "zeros" => case.push_zeros(number(rest)?)?,
        "repeat" => repeat(alloc, case, rest)?,
        _ => return Ok(false),
    }
    Ok(true)
}

/// Takes a cut, a change, or a call that fails, and says whether it does.
fn takes_numbers(alloc: Global, case: &mut Case, word: &str, rest: &str) -> Result<bool> {
    match word {
        "cut" => cut(case, rest)?,
        "change" => change(alloc, case, rest)?,
        "swap" => swap(alloc, case, rest)?,
        "take" => case.fail_take(number(rest)?)?,
        "put" => case.fail_put(number(rest)?)?,
        _ => return Ok(false),
    }
    Ok(true)
}

/// Adds the bytes of hexadecimal digits.
fn push_digits(alloc: Global, case: &mut Case, digits: &str) -> Result<()> {
    case.push_bytes(hex::decode(alloc, digits)?.as_slice())?;
    Ok(())
}

/// Adds so many lines of a text.
fn push_lines(case: &mut Case, rest: &str) -> Result<()> {
    let (count, text) = halves(rest)?;
    case.push_lines(number(count)?, text)?;
    Ok(())
}

/// Has bytes of the part stand there several times.
fn repeat(alloc: Global, case: &mut Case, rest: &str) -> Result<()> {
    let (at, count) = halves(rest)?;
    case.repeat(alloc, number(at)?, number(count)?)?;
    Ok(())
}

/// Has the case run at the cuts from a first one to a last one.
fn cut(case: &mut Case, rest: &str) -> Result<()> {
    let (first, last) = halves(rest)?;
    case.cut(number(first)?, number(last)?);
    Ok(())
}

/// Has other bytes stand in the input of the case.
fn change(alloc: Global, case: &mut Case, rest: &str) -> Result<()> {
    let (at, bytes) = halves(rest)?;
    let (old, new) = halves(bytes)?;
    let (old, new) = (hex::decode(alloc, old)?, hex::decode(alloc, new)?);
    if !case.change(alloc, number(at)?, old.as_slice(), new.as_slice())? {
        bail!("no such bytes: {rest}");
    }
    Ok(())
}

/// Has two parts of the input of the case, one behind the other, change places.
fn swap(alloc: Global, case: &mut Case, rest: &str) -> Result<()> {
    let (first, others) = halves(rest)?;
    let (second, third) = halves(others)?;
    if !case.swap(alloc, number(first)?, number(second)?, number(third)?)? {
        bail!("no such parts: {rest}");
    }
    Ok(())
}

/// Runs a case that is to end with this status, and prints what came of it.
fn tell_verdict<R: Print + Threads + Wait + Sync>(
    rt: &R,
    alloc: Global,
    natives: &Natives,
    case: &Case,
    status: &str,
) -> Result<()> {
    let told = case.verdict(rt, alloc, natives, number(status)?)?;
    println!(rt; "{told}")?;
    Ok(())
}

/// Takes a line at which a case runs, or the trace before is recorded, and says whether it does.
fn runs<R: Print + Threads + Wait + Sync>(
    rt: &R,
    alloc: Global,
    natives: &Natives,
    case: &mut Case,
    word: &str,
    rest: &str,
) -> Result<bool> {
    match word {
        "status" => tell_verdict(rt, alloc, natives, case, rest)?,
        "by_audit" => case.begin_by_audit(rt, alloc, natives, rest)?,
        _ => return Ok(false),
    }
    Ok(true)
}

/// Takes one line of a case. At its last line the case runs, and what came of it is printed.
fn take_line<R: Files + AllocGlobal + Print + Threads + Wait + Sync>(
    rt: &R,
    alloc: Global,
    natives: &Natives,
    case: &mut Case,
    line: &str,
) -> Result<()> {
    if line.starts_with('#') || takes_bytes(rt, case, line)? {
        return Ok(());
    }
    let (word, rest) = line.split_once(' ').unwrap_or((line, ""));
    if runs(rt, alloc, natives, case, word, rest)?
        || begins(alloc, case, word, rest)?
        || takes_counts(alloc, case, word, rest)?
        || takes_numbers(alloc, case, word, rest)?
    {
        return Ok(());
    }
    bail!("no line of a case: {line}")
}

/// What stands before the first space, and what stands behind it.
fn halves(text: &str) -> Result<(&str, &str)> {
    text.split_once(' ').context("reading two words")
}

fn number(text: &str) -> Result<u32> {
    text.parse::<u32>().ok().context("reading a number")
}

fn main(rt: HostRuntime) -> Result<()> {
    let alloc = rt.alloc();
    // What the program has built in, and its digest application under fifteen other UUIDs, with other last octets: sixteen are
    // as many as can be.
    let mut natives = program_natives!(alloc)?;
    for last_octet in 2..=MAX_NATIVES as u8 {
        let mut uuid = DIGEST_UUID;
        uuid[15] = last_octet;
        let built_in = natives.add(Native {
            uuid: Uuid::from_bytes(uuid),
            relation: Relation::Digest,
            call: digest,
        });
        if built_in.is_err() {
            bail!("no memory for the applications that are built in");
        }
    }
    let mut case = Case::new(alloc, "")?;
    for line in BufReader::new(alloc, rt.reader())?.lines(alloc) {
        take_line(&rt, alloc, &natives, &mut case, line?.as_str())?;
    }
    Ok(())
}
