//! What an exit has changed in RAM.

ghost use Rattle.std.specs.Prelude.{◌≡◌, ℕ, ◌+◌, ◌*◌, ◌<◌, List, ◌++◌, OnOk, length};
ghost use Rattle.live_play.specs.Changes.{block_at, change_at, changes, changes_below, text_of_changes, wrote_line};
ghost use Rattle.page_set.specs.Keeping.{AreKept};
ghost use Rattle.page_set.specs.Pages.{page_at};

use crate::digits::push_address;
use answer_lines::{push_hex, push_numbered};
use ns_ram::{PAGE_BYTES, RAM_START};
use page_set::KeptPages;
use std::alloc::{AllocError, Global};

/// The bytes of a block.
const BLOCK_BYTES: usize = 64;

/// The blocks of a page.
const PAGE_BLOCKS: usize = 64;

/// Appends the line of a block that has changed.
fn push_block(
    alloc: Global,
    text: &mut Vec<u8>,
    cpu: u8,
    addr: u64,
    block: &[u8],
) -> Result<(), AllocError>
    ensures { OnOk result (
        text.new.items ≡ text.old.items ++ wrote_line cpu (record { addr = addr; bytes = block.now })) }
{
    push_numbered(text, b"wrote ", u64::from(cpu))?;
    push_address(alloc, text, addr)?;
    text.push(b' ')?;
    push_hex(alloc, text, block)
}

/// Appends the line of a block, where it isn't what it was before.
fn push_change(
    alloc: Global,
    text: &mut Vec<u8>,
    cpu: u8,
    number: usize,
    was: &[u8],
    is: &[u8],
) -> Result<(), AllocError>
    requires { number < 65536 }
    ensures { (before after : List ℕ) → was.now ≡ block_at before number → is.now ≡ block_at after number
        → OnOk result (text.new.items ≡ text.old.items ++ text_of_changes cpu (change_at before after number)) }
{
    if was == is {
        return Ok(());
    }
    let addr = RAM_START + (BLOCK_BYTES * number) as u64;
    push_block(alloc, text, cpu, addr, is)
}

/// Appends the lines of the blocks of a page that aren't what they were before, in rising order, behind those of all pages before it.
fn push_page(
    alloc: Global,
    text: &mut Vec<u8>,
    cpu: u8,
    page: usize,
    was: &[u8],
    is: &[u8],
) -> Result<(), AllocError>
    requires there { page < 1024 }
    requires was { length was.now ≡ 4096 }
    requires is { length is.now ≡ 4096 }
    ensures { (before after start : List ℕ) → was.now ≡ page_at before page → is.now ≡ page_at after page
        → text.old.items ≡ start ++ text_of_changes cpu (changes_below (64 * page) before after)
        → OnOk result (text.new.items ≡ start ++ text_of_changes cpu (changes_below (64 * page + 64) before after)) }
{
    for block in 0..PAGE_BLOCKS {
        let start = BLOCK_BYTES * block;
        let end = start + BLOCK_BYTES;
        let number = PAGE_BLOCKS * page + block;
        push_change(alloc, text, cpu, number, &was[start..end], &is[start..end])?;
    }
    Ok(())
}

/// Appends the lines of all blocks of a processor's RAM that aren't what they were before, in rising order, where the pages that
/// were kept have all that has changed.
pub fn push_changes(
    alloc: Global,
    text: &mut Vec<u8>,
    cpu: u8,
    kept: &KeptPages,
    after: &[u8],
) -> Result<(), AllocError>
    requires whole { length after.now ≡ 0x400000 }
    requires kept { (before : List ℕ) × AreKept kept.now before after.now }
    ensures { (before : List ℕ) → AreKept kept.now before after.now
        → OnOk result (text.new.items ≡ text.old.items ++ text_of_changes cpu (changes before after.now)) }
{
    let mut left = kept.bytes.as_slice();
    for page in 0..kept.pages.capacity() {
        if !kept.pages.has(page) {
            continue;
        }
        let (was, others) = left.split_at(PAGE_BYTES as usize);
        let start = PAGE_BYTES as usize * page;
        push_page(
            alloc,
            text,
            cpu,
            page,
            was,
            &after[start..start + PAGE_BYTES as usize],
        )?;
        left = others;
    }
    Ok(())
}
