//! Groups in histories that are drawn: whether the machine of each replies what the group was answered.
ghost use Rattle.std.specs.Prelude.{◌<◌};

use crate::groups::group_told;
use anyhow::{Context, Result, bail};
use std::alloc::Global;
use std::fmt::Write;

/// Numbers drawn one after the other: the linear congruential generator of Numerical Recipes.
#[derive(Drop)]
struct Draws {
    state: u32,
}

impl Draws {
    /// A number below so many.
    fn below(&mut self, count: usize) -> usize
        requires { 0 < count }
        ensures { result < count }
    {
        self.state = self
            .state
            .wrapping_mul(1_664_525)
            .wrapping_add(1_013_904_223);
        (self.state >> 8) as usize % count
    }
}

/// Adds a move, whose items stand between semicolons, to the text of a trace.
fn add_move(text: &mut String, drawn: &str) -> Result<()> {
    for item in drawn.split(';') {
        writeln!(text, "{item}")?;
    }
    Ok(())
}

/// The text of a trace: its header, and so many moves of a table, which are drawn from this seed on.
fn drawn_text(
    alloc: Global,
    header: &str,
    table: &[&str],
    seed: u32,
    moves: u32,
) -> Result<String> {
    if table.is_empty() {
        bail!("a table without a move");
    }
    let mut text = String::new(alloc);
    text.push_str(header)?;
    let mut draws = Draws { state: seed };
    for _ in 0..moves {
        add_move(&mut text, table[draws.below(table.len())])?;
    }
    Ok(text)
}

/// What the groups of so many histories tell, each drawn from the seed of its number.
fn all_told(
    alloc: Global,
    header: &str,
    table: &[&str],
    histories: u32,
    moves: u32,
) -> Result<String> {
    let mut told = String::new(alloc);
    for seed in 0..histories {
        let text = drawn_text(alloc, header, table, seed, moves)?;
        told.push_str(group_told(alloc, text.as_bytes())?.as_str())?;
    }
    Ok(told)
}

/// Tells the lines of the replies for which a group was answered otherwise, and which of these words its histories told, and which not.
fn tell_summary(all: &str, words: &str, told: &mut String) -> Result<()> {
    for line in all.lines() {
        if line.contains(" otherwise ") {
            writeln!(told, "{line}")?;
        }
    }
    for word in words.split(',') {
        let how = if all.contains(word) { "told" } else { "never" };
        writeln!(told, "  {how} {word}")?;
    }
    Ok(())
}

/// What a case tells of histories that it has drawn: its first line has the number of histories and that of moves, its second the words
/// that have to be told, behind it stands the header of a trace, and behind a line `draw` the table of moves.
pub(crate) fn drawn_told(alloc: Global, case: &str) -> Result<Vec<u8>> {
    let (sizes, rest) = case.split_once('\n').context("reading sizes")?;
    let (histories, moves) = sizes.split_once(' ').context("reading two sizes")?;
    let (words, rest) = rest.split_once('\n').context("reading words")?;
    let (header, table) = rest.split_once("draw\n").context("reading a table")?;
    let mut lines = Vec::new(alloc);
    for line in table.lines() {
        lines.push(line)?;
    }
    let all = all_told(
        alloc,
        header,
        lines.as_slice(),
        histories.parse()?,
        moves.parse()?,
    )?;
    let mut told = String::new(alloc);
    tell_summary(all.as_str(), words, &mut told)?;
    Ok(told.into_bytes())
}
