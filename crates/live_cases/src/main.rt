//! Holds conversations with a core over a port in memory, from standard input. Prints the name of each case and `ok`, or in what
//! it isn't as the case says.
//!
//! A case is lines: `case NAME`, what a side says, what is to be answered, and last `end WORD`, at which the conversation is held:
//! it has to end so, `over`, `usage`, `read_fault` or `write_fault`. `words W..` are the words of the command line, `no_text` says that it
//! isn't UTF-8, and `put_fails` that the usage line can't be written. What a side says is given by lines
//!
//! - `> LINE`, `hex HEX` (the line has these bytes), `comment N` (it has N bytes `#`) and `fill N HEX LINE` (the text, and behind it
//!   these digits N times);
//! - `while WORD LINE`: the line is said again and again, as long as the first line of the last answer has the word;
//! - `cut LINE`, `cut_hex HEX` and `cut_comment N`: the input ends within the line;
//! - `wander CPUS TURNS SEED`: a side that chooses so many lines by what it is answered, pseudo-randomly, in place of all these.
//!
//! `{N}` in a line stands for word N, from 0, of the first line of the last answer. Each line `< LINE` is wanted as the next one of
//! all that is said; `times N` has what is wanted so far behind the last line of the side stand there N times in all, and `again N` has
//! that line, with what is wanted behind it, come N times more. `fails N` makes call N of the port fail, counted from 0. `notify` plays the lines that were taken, those before an `ok`, as a trace with signals
//! besides: what that prints is to be what was said for them. A line that begins with `#` says why something is wanted.
#![tactic(auto)]

mod case;
mod notifying;
mod script;
mod side;
mod wanderer;

use crate::case::Case;
use anyhow::{Context, Result, bail};
use native_tas::{Natives, program_natives};
use std::alloc::Global;
use std::io::{BufRead, BufReader};
use std::mem;

/// What stands before the first space, and what stands behind it.
fn halves(text: &str) -> Result<(&str, &str)> {
    text.split_once(' ').context("reading two words")
}

fn number(text: &str) -> Result<u32> {
    text.parse::<u32>().ok().context("reading a number")
}

/// So many bytes `#`.
fn comment(alloc: Global, rest: &str) -> Result<Vec<u8>> {
    let mut line = Vec::new(alloc);
    for _ in 0..number(rest)? {
        line.push(b'#')?;
    }
    Ok(line)
}

/// A text, and behind it digits, so many times.
fn filled(alloc: Global, rest: &str) -> Result<Vec<u8>> {
    let (count, behind) = halves(rest)?;
    let (digits, text) = halves(behind)?;
    let mut line = Vec::from_slice(alloc, text.as_bytes())?;
    for _ in 0..number(count)? {
        line.extend_from_slice(digits.as_bytes())?;
    }
    Ok(line)
}

/// The line of a side that this line of a case gives, whether the input ends within it, or `None` where it gives none.
fn line_of(alloc: Global, word: &str, rest: &str) -> Result<Option<(Vec<u8>, bool)>> {
    Ok(match word {
        ">" => Some((Vec::from_slice(alloc, rest.as_bytes())?, false)),
        "hex" => Some((hex::decode(alloc, rest)?, false)),
        "comment" => Some((comment(alloc, rest)?, false)),
        "fill" => Some((filled(alloc, rest)?, false)),
        "cut" => Some((Vec::from_slice(alloc, rest.as_bytes())?, true)),
        "cut_hex" => Some((hex::decode(alloc, rest)?, true)),
        "cut_comment" => Some((comment(alloc, rest)?, true)),
        _ => None,
    })
}

/// The side wanders.
fn wander(alloc: Global, case: &mut Case, rest: &str) -> Result<()> {
    let (cpus, behind) = halves(rest)?;
    let (turns, seed) = halves(behind)?;
    case.wander(alloc, number(cpus)?, number(turns)?, number(seed)?);
    Ok(())
}

/// Takes a line that says something of the side or of the port, and says whether it does.
fn takes_side(alloc: Global, case: &mut Case, word: &str, rest: &str) -> Result<bool> {
    if let Some((line, is_cut)) = line_of(alloc, word, rest)? {
        case.push_line(line, is_cut)?;
        return Ok(true);
    }
    match word {
        "while" => {
            let (wanted, line) = halves(rest)?;
            case.push_while(alloc, wanted, line)?;
        }
        "wander" => wander(alloc, case, rest)?,
        "fails" => case.fail(number(rest)?)?,
        _ => return Ok(false),
    }
    Ok(true)
}

/// Takes a line that says something of the command line, and says whether it does.
fn takes_words(alloc: Global, case: &mut Case, word: &str, rest: &str) -> Result<bool> {
    match word {
        "words" => case.say_words(alloc, rest)?,
        "no_text" => case.say_no_text(),
        "put_fails" => case.fail_put()?,
        _ => return Ok(false),
    }
    Ok(true)
}

/// Takes a line that says what is wanted, and says whether it does.
fn takes_wanted(alloc: Global, case: &mut Case, word: &str, rest: &str) -> Result<bool> {
    match word {
        "<" => case.want(rest)?,
        "again" => case.again(alloc, number(rest)?)?,
        "times" => case.times(alloc, number(rest)?)?,
        "notify" => case.notify(),
        _ => return Ok(false),
    }
    Ok(true)
}

/// Takes one line of a case. At its last line the conversation is held, and what came of it is printed.
fn take_line<R: Print>(
    rt: &R,
    alloc: Global,
    natives: &Natives,
    case: &mut Case,
    line: &str,
) -> Result<()> {
    if line.starts_with('#') {
        return Ok(());
    }
    let (word, rest) = line.split_once(' ').unwrap_or((line, ""));
    match word {
        "case" => *case = Case::new(alloc, rest)?,
        "end" => {
            let whole = mem::replace(case, Case::new(alloc, "")?);
            let told = whole.verdict(alloc, natives, rest)?;
            println!(rt; "{told}")?;
        }
        _ => {
            if !takes_words(alloc, case, word, rest)?
                && !takes_side(alloc, case, word, rest)?
                && !takes_wanted(alloc, case, word, rest)?
            {
                bail!("no line of a case: {line}");
            }
        }
    }
    Ok(())
}

fn main(rt: HostRuntime) -> Result<()> {
    let alloc = rt.alloc();
    let natives = program_natives!(alloc)?;
    let mut case = Case::new(alloc, "")?;
    for line in BufReader::new(alloc, rt.reader())?.lines(alloc) {
        take_line(&rt, alloc, &natives, &mut case, line?.as_str())?;
    }
    Ok(())
}
