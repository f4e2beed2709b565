ghost use Rattle.std.specs.Prelude.{◌≡◌, ℕ, ◌+◌, ◌*◌, ◌<◌, ◌≤◌, false, length, replicate, true};
ghost use Rattle.ns_ram.specs.Lane.{IsInRam};
ghost use Rattle.page_set.specs.Pages.{HasBytes, IsWithin, is_in};

use ns_ram::{PAGE_BYTES, RAM_START, in_ram};
use std::marker::Model;

/// The number of pages of RAM.
pub const PAGES: usize = 1024;

/// Pages of RAM. Contracts see of each page, by its number, whether it is one of them.
#[derive(Drop)]
pub struct PageSet {
    marks: [bool; PAGES],
}

impl Model for PageSet {
    ghost use Rattle.std.specs.Prelude.{◌≡◌, Bool, List, length};

    ghost Value = { List Bool };

    ghost view = { λ pages. pages.marks };

    ghost invariant = { λ pages. length pages.marks ≡ 1024 };
}

impl PageSet {
    /// None.
    pub fn none() -> PageSet
        ensures { result ≡ replicate 1024 false }
    {
        PageSet {
            marks: [false; PAGES],
        }
    }

    /// Adds each page that the `len` bytes at `addr` touch, where these lie in RAM, all of them. Which pages it has more is no
    /// part of the contract.
    pub fn mark(&mut self, addr: u64, len: u64)
        ensures bytes { IsInRam addr len → HasBytes self.new addr len }
        ensures keeps { IsWithin self.old self.new }
        ensures whole { length self.new ≡ 1024 }
    {
        if in_ram(addr, len) {
            mark_from(&mut self.marks, addr - RAM_START, len);
        }
    }

    /// How many pages it can have, which are all of RAM's, whichever it has.
    pub fn capacity(&self) -> usize
        ensures marks { result ≡ length self.now }
        ensures all { result ≡ 1024 }
    {
        let marks = &self.marks;
        marks.len()
    }

    /// Whether the page of a number is one of them.
    pub fn has(&self, number: usize) -> bool
        requires { number < 1024 }
        ensures { result ≡ is_in self.now number }
    {
        self.marks[number]
    }
}

/// Marks each page that the `len` bytes at an offset touch.
fn mark_from(marks: &mut [bool], offset: u64, len: u64)
    requires all { length marks.old ≡ 1024 }
    requires inside { offset + len ≤ 0x400000 }
    ensures touched { (number : ℕ) → 4096 * number < offset + len → offset < 4096 * number + 4096
        → is_in marks.new number ≡ true }
    ensures keeps { IsWithin marks.old marks.new }
{
    let first = offset / PAGE_BYTES;
    let end = (offset + len + PAGE_BYTES - 1) / PAGE_BYTES;
    for number in first..end {
        marks[number as usize] = true;
    }
}
