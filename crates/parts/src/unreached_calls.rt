//! Calls that no program makes: the kernel calls `take_pages` and `take_params` in the place of `walk_pages` and `copy_in`, and
//! a play of signals is tested by others.

use crate::{bytes_of, number};
use anyhow::{Context, Result, bail};
use msg_args::{MsgParam, ParamKind};
use native_tas::program_natives;
use notif::{Desk, Noted};
use ns_ram::{Lane, in_ram, walk_pages};
use param_copy::{Copied, copy_in};
use shm_registry::Registry;
use std::alloc::{AllocError, Global};
use std::fmt::Write;
use ta_params::GpParam;

/// A number in hexadecimal digits.
fn address(word: &str) -> Result<u64> {
    u64::from_str_radix(word, 16)
        .ok()
        .context("reading an address")
}

/// RAM in which these bytes stand at this address.
fn lane_of(alloc: Global, addr: u64, bytes: &[u8]) -> Result<Lane> {
    if !in_ram(addr, bytes.len() as u64) {
        bail!("bytes outside of RAM");
    }
    let mut lane = Lane::new(alloc)?;
    lane.write(addr, bytes);
    Ok(lane)
}

/// The pages of a list, as `pages LIST COUNT ADDRESS DIGITS` has it.
pub(crate) fn pages_told(alloc: Global, row: &str) -> Result<String> {
    let words: Vec<&str> = row.split(' ').collect(alloc)?;
    let [list, count, addr, digits] = words.as_slice() else {
        bail!("pages have four words");
    };
    let (list, count, addr) = (address(list)?, number(count)?, address(addr)?);
    if count > 1024 {
        bail!("too many pages");
    }
    let lane = lane_of(alloc, addr, bytes_of(alloc, digits)?.as_slice())?;
    let pages = walk_pages(alloc, &lane, list, count)?;
    let mut told = String::new(alloc);
    for page in pages.as_slice() {
        write!(told, "{page:x} ")?;
    }
    Ok(told)
}

/// A buffer that comes in, of this address and size.
fn buffer(addr: u64, size: u64) -> MsgParam {
    MsgParam {
        kind: ParamKind::TmemIn,
        p: addr,
        q: size,
        ..MsgParam::default()
    }
}

/// The bytes of the first parameter, and how many reads were made.
fn copied_told(alloc: Global, copied: &Copied) -> Result<String> {
    let reads = copied.reads.as_slice().len();
    let GpParam::Memref { buf, size, .. } = &copied.params.p0 else {
        bail!("no buffer was copied");
    };
    let digits = hex::encode(alloc, buf.bytes())?;
    format!(in alloc; "{size} bytes {digits}, {reads} reads").context("telling a copy")
}

/// What is copied of a buffer, as `copy ADDRESS SIZE DIGITS` has it.
pub(crate) fn copy_told(alloc: Global, row: &str) -> Result<String> {
    let words: Vec<&str> = row.split(' ').collect(alloc)?;
    let [addr, size, digits] = words.as_slice() else {
        bail!("a copy has three words");
    };
    let (addr, size) = (address(addr)?, number(size)?);
    let lane = lane_of(alloc, addr, bytes_of(alloc, digits)?.as_slice())?;
    let registry = Registry::new(alloc)?;
    let copied = copy_in(alloc, &lane, &registry, &[buffer(addr, u64::from(size))], 0)?;
    copied_told(alloc, &copied)
}

/// A desk with the program's driver, whose value is 1, at which signals count.
fn desk_of(alloc: Global) -> Result<Desk> {
    let natives = program_natives!(alloc)?;
    let mut desk = Desk::new(alloc, &natives)?;
    desk.enable();
    Ok(desk)
}

/// Signals a value.
fn signal(desk: &mut Desk, word: &str) -> Result<()> {
    let value = number(word)?;
    if value == 0 || value > 63 {
        bail!("no value of a signal");
    }
    desk.signal(value);
    Ok(())
}

/// Tells what a desk tells next.
fn tell_next(told: &mut String, noted: Option<Noted>) -> Result<(), AllocError> {
    match noted {
        Some(Noted { value, more: true }) => write!(told, "{value} and more, "),
        Some(Noted { value, more: false }) => write!(told, "{value}, "),
        None => told.push_str("nothing"),
    }
}

/// What a desk tells next, three times, after these signals.
pub(crate) fn desk_told(alloc: Global, row: &str) -> Result<String> {
    let mut desk = desk_of(alloc)?;
    for word in row.split(' ') {
        signal(&mut desk, word)?;
    }
    let mut told = String::new(alloc);
    for _ in 0..3 {
        tell_next(&mut told, desk.next())?;
    }
    Ok(told)
}
