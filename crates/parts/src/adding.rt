//! Two threads add lines to one log under a lock.
ghost use Rattle.std.specs.Prelude.{◌≡◌, ◌<◌, ◌≤◌, ◌++◌, ◌∷◌, [], map, All, IfOk, MatchBool, vec_len, vec_capacity};
ghost use Rattle.core_lock.specs.Counts.{made_by};
ghost use Rattle.core_lock.specs.Passes.{count_of, number, made, IsPassOf, IsIdle};
ghost use Rattle.parts.specs.Lines.{all_lines, writer, title, lines_by};

use crate::log::{Line, Log};
use crate::number;
use anyhow::{Context, Result};
use base::NoMemory;
use core_lock::{CoreLock, Pass};
use std::alloc::Global;
use std::fmt::Write;
use std::sync::Wait;
use std::thread;
use std::thread::Threads;

// Takes a turn and writes one word, and says whether there was memory for it.
fn add_one(rt: &impl Wait, lock: &CoreLock<Log>, pass: &mut Pass<Log>, word: u32) -> bool
    requires own { IsPassOf writer title lock.now pass.old × IsIdle pass.old }
    ensures own { IsPassOf writer title lock.now pass.new × IsIdle pass.new × (number pass.new ≡ number pass.old) }
    ensures made { MatchBool result (made pass.new ≡ made pass.old ++ lines_by (number pass.old) (word ∷ [])) (made pass.new ≡ made pass.old) }
{
    let by = pass.number();
    let mut turn = lock.take_turn(rt, pass);
    let added = turn.value_mut().write(Line { by, word });
    lock.give_back(pass, turn);
    added
}

// Writes the words, a turn for each. The pass comes back, with whether all were written.
fn add_all(
    rt: &impl Wait,
    lock: &CoreLock<Log>,
    mut pass: Pass<Log>,
    words: &[u32],
) -> (Pass<Log>, bool)
    requires own { IsPassOf writer title lock.now pass × IsIdle pass }
    ensures own { IsPassOf writer title lock.now result.0 × IsIdle result.0 × (number result.0 ≡ number pass) }
    ensures made { MatchBool result.1 (made result.0 ≡ made pass ++ lines_by (number pass) words.now) (Unit {0}) }
{
    for word in words {
        if !add_one(rt, lock, &mut pass, *word) {
            return (pass, false);
        }
    }
    (pass, true)
}

// The passes 0 and 1 of a new lock, and the room where they lay.
fn two_of(mut passes: Vec<Pass<Log>>) -> (Pass<Log>, Pass<Log>, Vec<Pass<Log>>)
    requires { map number passes.items ≡ 0 ∷ 1 ∷ [] }
    ensures { (passes.items ≡ result.0 ∷ result.1 ∷ []) × (result.2.items ≡ []) × (vec_len result.2 ≡ 0) × (vec_capacity result.2 ≡ vec_capacity passes) }
{
    let (Some(second), Some(first)) = (passes.pop(), passes.pop()) else {
        unreachable!()
    };
    (first, second, passes)
}

// The log of a lock whose two passes are back. Their list has room.
fn closed(lock: CoreLock<Log>, mut passes: Vec<Pass<Log>>, one: Pass<Log>, two: Pass<Log>) -> Log
    requires room { (passes.items ≡ []) × (vec_len passes ≡ 0) × (2 ≤ vec_capacity passes) }
    requires count { count_of lock ≡ 2 }
    requires one { IsPassOf writer title lock one × IsIdle one × (number one ≡ 0) }
    requires two { IsPassOf writer title lock two × IsIdle two × (number two ≡ 1) }
    ensures one { made_by writer 0 (all_lines result) ≡ made one }
    ensures two { made_by writer 1 (all_lines result) ≡ made two }
    ensures others { All (λ line. line.by < 2) (all_lines result) }
{
    passes.push_reserved(one);
    passes.push_reserved(two);
    lock.close(passes)
}

/// Two threads write words into one log, each under its number. With a log, it has all of them, each
/// thread's in their order, and no lines of other numbers.
fn add_both<R: Threads + Wait + Sync>(
    rt: &R,
    alloc: Global,
    first: &[u32],
    second: &[u32],
) -> Result<Log, NoMemory>
    ensures first { IfOk result (λ log. made_by writer 0 (all_lines log) ≡ lines_by 0 first.now) }
    ensures second { IfOk result (λ log. made_by writer 1 (all_lines log) ≡ lines_by 1 second.now) }
    ensures others { IfOk result (λ log. All (λ line. line.by < 2) (all_lines log)) }
{
    let log = Log {
        title: 1,
        lines: Vec::new(alloc),
    };
    let (lock, passes) = match CoreLock::new(alloc, log, 2) {
        Ok(made) => made,
        Err((_log, error)) => return Err(error),
    };
    let (one, two, passes) = two_of(passes);
    let shared = &lock;
    let ((one, first_written), (two, second_written)) = thread::join(
        rt,
        move || -> (Pass<Log>, bool)
            requires { IsPassOf writer title shared.now one × IsIdle one }
            ensures own { IsPassOf writer title shared.entry.now result.0 × IsIdle result.0 × (number result.0 ≡ number one) }
            ensures made { MatchBool result.1 (made result.0 ≡ made one ++ lines_by (number one) first.entry.now) (Unit {0}) }
        { add_all(rt, shared, one, first) },
        move || -> (Pass<Log>, bool)
            requires { IsPassOf writer title shared.now two × IsIdle two }
            ensures own { IsPassOf writer title shared.entry.now result.0 × IsIdle result.0 × (number result.0 ≡ number two) }
            ensures made { MatchBool result.1 (made result.0 ≡ made two ++ lines_by (number two) second.entry.now) (Unit {0}) }
        { add_all(rt, shared, two, second) },
    );
    let log = closed(lock, passes, one, two);
    if first_written && second_written {
        Ok(log)
    } else {
        Err(NoMemory)
    }
}

/// Tells the words that were written under one number, in order.
fn tell_words(told: &mut String, log: &Log, by: u32) -> Result<()> {
    write!(told, "{by}:")?;
    for line in log.lines.as_slice() {
        if line.by == by {
            write!(told, " {}", line.word)?;
        }
    }
    Ok(())
}

/// The numbers of a word, which have commas between them.
fn numbers(alloc: Global, word: &str) -> Result<Vec<u32>> {
    let mut numbers = Vec::new(alloc);
    for part in word.split(',') {
        numbers.push(number(part)?)?;
    }
    Ok(numbers)
}

/// What two threads have written that write these words each.
pub(crate) fn told<R: Threads + Wait + Sync>(rt: &R, alloc: Global, row: &str) -> Result<String> {
    let (first, second) = row.split_once(' ').context("reading the words of two")?;
    let (first, second) = (numbers(alloc, first)?, numbers(alloc, second)?);
    let log = add_both(rt, alloc, first.as_slice(), second.as_slice())?;
    let mut told = String::new(alloc);
    tell_words(&mut told, &log, 0)?;
    told.push_str(", ")?;
    tell_words(&mut told, &log, 1)?;
    Ok(told)
}
