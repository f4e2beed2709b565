ghost use Rattle.std.specs.Prelude.{◌≡◌, ◌+◌, ◌-◌, ◌*◌, ◌%◌, ◌^◌, ◌<◌, ◌≤◌, [], ◌++◌, drop, length, nat_lt, take, vec_capacity};
ghost use Rattle.std.specs.List.{concat};
ghost use Rattle.base.specs.Bytes.{has_bytes, overwritten, written};
ghost use Rattle.frame_pool.specs.Pages.{AreWhole, page_count};
ghost use Rattle.ta_step.specs.Bytes.{word_at};

use crate::frame::{Frame, PAGE_BYTES};
use crate::rooms::Lent;
use std::alloc::Global;
use std::marker::Model;
use ta_step::TaMemory;

/// The most pages that one owner has.
pub const MAX_PAGES: usize = 64;

/// The bytes of a word.
const WORD_BYTES: usize = 4;

/// Some pages of a pool, one behind the other, as the memory of one instance. Contracts see the list of their
/// bytes.
#[derive(Drop)]
pub struct Pages {
    frames: Vec<Frame>,
    lent: Lent,
}

impl Model for Pages {
    ghost use Rattle.std.specs.Prelude.{ℕ, List, ◌<◌, ◌≤◌, length, vec_capacity};
    ghost use Rattle.std.specs.List.{concat};
    ghost use Rattle.frame_pool.specs.Pages.{AreWhole};

    ghost Value = { List ℕ };

    ghost view = { λ pages. concat pages.frames.items };

    ghost invariant = { λ pages. AreWhole pages.frames.items × (length pages.frames.items ≤ 64)
        × (length pages.frames.items ≤ pages.lent) × (0 < pages.lent → 64 ≤ vec_capacity pages.frames) };
}

impl Pages {
    /// No pages. Takes no memory.
    pub(crate) fn none(alloc: Global) -> Pages
        ensures bytes { result ≡ [] }
        ensures count { page_count result ≡ 0 }
    {
        Pages {
            frames: Vec::new(alloc),
            lent: Lent::none(),
        }
    }

    /// The pages in these frames, whose list is of the first of these rooms.
    pub(crate) fn of(frames: Vec<Frame>, lent: Lent) -> Pages
        requires whole { AreWhole frames.items }
        requires at_most { length frames.items ≤ 64 }
        requires rooms { length frames.items ≤ lent }
        requires fits { 64 ≤ vec_capacity frames }
        ensures bytes { result ≡ concat frames.items }
        ensures count { page_count result ≡ length frames.items }
    {
        Pages { frames, lent }
    }

    /// Gives the frames and their rooms back.
    pub(crate) fn into_parts(self) -> (Vec<Frame>, Lent)
        ensures whole { AreWhole result.0.items }
        ensures count { length result.0.items ≡ page_count self }
        ensures rooms { length result.0.items ≤ result.1 }
        ensures fits { 0 < result.1 → 64 ≤ vec_capacity result.0 }
    {
        let Pages { frames, lent } = self;
        (frames, lent)
    }

    /// How many pages there are.
    pub fn count(&self) -> u16
        ensures count { result ≡ page_count self.now }
        ensures whole { length self.now ≡ 4096 * result }
        ensures at_most { result ≤ 64 }
    {
        self.frames.len() as u16
    }

    /// The word from an address on, byte by byte, where it may lie in two pages.
    #[tactic(auto, using(ta_step::proofs::Words::word_found, ta_step::proofs::Words::word_cut))]
    fn word_across(&self, addr: u32) -> Option<u32>
        requires { addr + 4 < 2 ^ 32 }
        ensures { result ≡ word_at self.now addr }
    {
        let b0 = self.load(addr)?;
        let b1 = self.load(addr + 1)?;
        let b2 = self.load(addr + 2)?;
        let b3 = self.load(addr + 3)?;
        Some(u32::from_le_bytes([b0, b1, b2, b3]))
    }

    /// Writes four bytes from an address on, one after another, over bytes that are all there.
    #[tactic(auto, using(ta_step::proofs::Words::word_set))]
    fn put_bytes(&mut self, addr: u32, word: [u8; 4])
        requires there { addr + 4 ≤ length self.old }
        requires fits { addr + 4 < 2 ^ 32 }
        ensures { self.new ≡ overwritten self.old addr word }
    {
        self.store(addr, word[0]);
        self.store(addr + 1, word[1]);
        self.store(addr + 2, word[2]);
        self.store(addr + 3, word[3]);
    }

    /// Writes four bytes from an address on where they may lie in two pages, or answers `false` where they are not all
    /// there.
    fn set_word_across(&mut self, addr: u32, word: [u8; 4]) -> bool
        requires { addr + 4 < 2 ^ 32 }
        ensures inside { result ≡ has_bytes self.old addr 4 }
        ensures bytes { self.new ≡ written self.old addr word }
    {
        if self.load(addr + 3).is_none() {
            return false;
        }
        self.put_bytes(addr, word);
        true
    }

    /// Copies bytes of one page from a place on out.
    fn read_in_page(&self, at: usize, out: &mut [u8])
        requires some { 0 < length out.old }
        requires there { at + length out.old ≤ length self.now }
        requires page { at % 4096 + length out.old ≤ 4096 }
        ensures { out.new ≡ take (length out.old) (drop at self.now) }
    {
        let frame = &self.frames[at / PAGE_BYTES];
        frame.read(at % PAGE_BYTES, out);
    }

    /// Writes a part over the bytes of one page from a place on.
    fn write_in_page(&mut self, at: usize, part: &[u8])
        requires some { 0 < length part.now }
        requires there { at + length part.now ≤ length self.old }
        requires page { at % 4096 + length part.now ≤ 4096 }
        ensures { self.new ≡ overwritten self.old at part.now }
    {
        let frame = &mut self.frames[at / PAGE_BYTES];
        frame.write(at % PAGE_BYTES, part);
    }
}

/// How many of so many bytes from a place on lie in its page.
fn in_page(at: usize, len: usize) -> usize
    ensures page { at % 4096 + result ≤ 4096 }
    ensures most { result ≤ len }
    ensures some { 0 < len → 0 < result }
{
    len.min(PAGE_BYTES - at % PAGE_BYTES)
}

/// Whether a word from an address on lies in two pages.
fn crosses(addr: u32) -> bool
    ensures { result ≡ nat_lt 4096 (addr % 4096 + 4) }
{
    addr as usize % PAGE_BYTES + WORD_BYTES > PAGE_BYTES
}

impl TaMemory for Pages {
    ghost bytes = { λ pages. pages };

    fn load(&self, addr: u32) -> Option<u8> {
        let frame = self.frames.as_slice().get(addr as usize / PAGE_BYTES)?;
        Some(frame.get(addr as usize % PAGE_BYTES))
    }

    fn store(&mut self, addr: u32, value: u8) -> bool {
        let Some(frame) = self.frames.get_mut(addr as usize / PAGE_BYTES) else {
            return false;
        };
        frame.set(addr as usize % PAGE_BYTES, value);
        true
    }

    fn load_word(&self, addr: u32) -> Option<u32> {
        if crosses(addr) {
            return self.word_across(addr);
        }
        let frame = self.frames.as_slice().get(addr as usize / PAGE_BYTES)?;
        Some(frame.word(addr as usize % PAGE_BYTES))
    }

    fn store_word(&mut self, addr: u32, word: [u8; 4]) -> bool {
        if crosses(addr) {
            return self.set_word_across(addr, word);
        }
        let Some(frame) = self.frames.get_mut(addr as usize / PAGE_BYTES) else {
            return false;
        };
        frame.set_word(addr as usize % PAGE_BYTES, word);
        true
    }

    fn read(&self, addr: u32, out: &mut [u8]) {
        let mut done = 0;
        while done < out.len() {
            let at = addr as usize + done;
            let end = done + in_page(at, out.len() - done);
            self.read_in_page(at, &mut out[done..end]);
            done = end;
        }
    }

    fn part(&self, addr: u32) -> &[u8] {
        let frame = &self.frames[addr as usize / PAGE_BYTES];
        frame.part(addr as usize % PAGE_BYTES)
    }

    fn write(&mut self, addr: u32, part: &[u8]) {
        let mut done = 0;
        while done < part.len() {
            let at = addr as usize + done;
            let end = done + in_page(at, part.len() - done);
            self.write_in_page(at, &part[done..end]);
            done = end;
        }
    }
}
