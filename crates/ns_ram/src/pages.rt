//! Page lists, by which the normal world names the pages of a buffer that doesn't lie in one piece. A list
//! is one page: the addresses of 511 pages, and then the address of the next list, eight bytes each with the
//! least one first (`OPTEE_MSG_ATTR_NONCONTIG` of `optee_msg.h`).

ghost use Rattle.std.specs.Prelude.{◌≡◌, ℕ, ◌+◌, ◌*◌, ◌%◌, ◌<◌, ◌≤◌, ◌↔◌, length, take, vec_len, vec_capacity, IsTrue, IsErrOf, IsSomeAnd, IfOk, IfErr, OnErr, Some, None, Ok, Err};
ghost use Rattle.std.specs.Int.{from_le_bytes, w64};
ghost use Rattle.ns_ram.specs.Lane.{IsInRam};
ghost use Rattle.ns_ram.specs.PageExamples.{PageExamples};
ghost use Rattle.ns_ram.specs.Pages.{AppendsEntries, AppendsReads, FindsPages, IfBadPage, IfMemory, first_bad_page, is_page, page_addresses, walk};
ghost use Rattle.ns_ram.specs.Reader.{over_lane, take_words, up_to_failing, words_of};

use crate::lane::Lane;
use crate::ram::{RAM_BYTES, RAM_START, in_ram};
use crate::reads::Reads;
use base::NoMemory;
use std::alloc::Global;
use std::error::Error;
use std::fmt;

/// The number of bytes of a page. A page's address is a multiple of it.
pub const PAGE_BYTES: u64 = 4096;

/// The number of page addresses of a list. The address of the next list stands behind them.
pub const LIST_ENTRIES: u64 = 511;

/// Why a walk over a page list gives no pages.
#[derive(Clone, Copy, Debug, PartialEq, Eq, Hash)]
pub enum WalkFault {
    /// The page of this number, counted from 0, is the first whose address, or whose list's address, is not
    /// that of a page in RAM.
    BadPage(u32),
    /// Want of memory.
    Memory,
}

impl fmt::Display for WalkFault {
    fn fmt<W: fmt::Write>(&self, f: &mut fmt::Formatter<W>) -> fmt::Result {
        match self {
            WalkFault::BadPage(page) => write!(f, "page {page} is no page of RAM"),
            WalkFault::Memory => f.write_str("out of memory"),
        }
    }
}

impl Error for WalkFault {}

impl From<NoMemory> for WalkFault {
    ghost use Rattle.std.specs.Prelude.{◌≡◌};
    ghost use Rattle.ns_ram.specs.declared.pages.WalkFault.TheVariants.{Memory};

    ghost from_gives = { λ _ fault. fault ≡ Memory };

    fn from(_refused: NoMemory) -> WalkFault {
        WalkFault::Memory
    }
}

/// Whether a whole page of RAM begins at the address.
pub fn is_page(addr: u64) -> bool
    ensures value { result ≡ is_page addr }
    ensures page { IsTrue result ↔ ((addr % 4096 ≡ 0) × IsInRam addr 4096) }
{
    addr % PAGE_BYTES == 0 && in_ram(addr, PAGE_BYTES)
}

/// The addresses of the first `count` pages of the chain of lists at `list`. A link is read only where a
/// further page is needed, so a chain that returns to itself is walked to the count.
pub fn walk_pages(alloc: Global, lane: &Lane, list: u64, count: u32) -> Result<Vec<u64>, WalkFault>
    requires { count ≤ 1024 }
    ensures pages { IfOk result (λ pages. pages.items ≡ page_addresses lane.now list count) }
    ensures none_bad { IfOk result (λ _. first_bad_page lane.now list count ≡ None) }
    ensures bad { IfErr result (λ fault. IfBadPage fault (λ page.
        first_bad_page lane.now list count ≡ Some page)) }
{
    has_all_of_ram(lane);
    let mut reads = Reads::new(alloc);
    take_pages(alloc, lane, list, count, &mut reads)
}

/// Does nothing, and says that a lane is as long as RAM.
fn has_all_of_ram(lane: &Lane)
    ensures { length lane.now ≡ 0x400000 }
{
    let _none = lane.at(RAM_START, 0);
}

/// What a walk finds in all of RAM are the pages of the chain, or its first bad one.
pub fn walks_find_pages()
    ensures { FindsPages }
{}

/// `walk_pages`, which besides lists what it reads, also where it finds a bad page: the used entries of each
/// list up to and with the first bad one, and where a further page is needed the eight bytes of the link. A
/// list whose own address is bad isn't read. At want of memory the list of reads is as it was.
#[tactic(auto, using(crate::proofs::PageWalk::reads_cut_back))]
pub fn take_pages(
    alloc: Global,
    lane: &Lane,
    list: u64,
    count: u32,
    reads: &mut Reads,
) -> Result<Vec<u64>, WalkFault>
    requires { count ≤ 1024 }
    ensures appended { AppendsReads lane.now reads.old reads.new }
    ensures pages { IfOk result (λ pages.
        over_lane (walk list count) lane.now reads.old ≡ Some (Ok pages.items, reads.new)) }
    ensures bad { IfErr result (λ fault. IfBadPage fault (λ page.
        over_lane (walk list count) lane.now reads.old ≡ Some (Err page, reads.new))) }
    ensures memory { IfErr result (λ fault. IfMemory fault (reads.new ≡ reads.old)) }
{
    let listed = reads.len();
    let walked = take_lists(alloc, lane, list, count, reads);
    if is_want_of_memory(&walked) {
        reads.truncate(listed);
    }
    walked
}

fn is_want_of_memory(walked: &Result<Vec<u64>, WalkFault>) -> bool
    ensures { IsTrue result ↔ IsErrOf walked.now WalkFault.Memory }
{
    matches!(walked, Err(WalkFault::Memory))
}

/// The walk over the lists, one after the other.
fn take_lists(
    alloc: Global,
    lane: &Lane,
    list: u64,
    count: u32,
    reads: &mut Reads,
) -> Result<Vec<u64>, WalkFault>
    requires { count ≤ 1024 }
    ensures appended { AppendsReads lane.now reads.old reads.new }
    ensures pages { IfOk result (λ pages.
        over_lane (walk list count) lane.now reads.old ≡ Some (Ok pages.items, reads.new)) }
    ensures bad { IfErr result (λ fault. IfBadPage fault (λ page.
        over_lane (walk list count) lane.now reads.old ≡ Some (Err page, reads.new))) }
{
    let Ok(mut pages) = Vec::with_capacity(alloc, count as usize) else {
        return Err(WalkFault::Memory);
    };
    if count == 0 {
        return Ok(pages);
    }
    let mut current = list;
    'lists: loop {
        let found = pages.len() as u64;
        if !is_page(current) {
            return Err(WalkFault::BadPage(found as u32));
        }
        let left = u64::from(count) - found;
        let entries = Entries {
            list: current,
            count: left.min(LIST_ENTRIES),
        };
        let are_pages = take_entries(alloc, lane, entries, &mut pages, reads)?;
        if !are_pages {
            return Err(WalkFault::BadPage(pages.len() as u32 - 1));
        }
        if left <= LIST_ENTRIES {
            return Ok(pages);
        }
        let link = reads.take_bytes(alloc, lane, current + 8 * LIST_ENTRIES, 8)?;
        current = first_word(link);
    }
}

/// Page lists at small inputs.
pub fn page_examples()
    ensures { PageExamples }
{}

/// The first entries of a list.
#[derive(Clone, Copy)]
struct Entries {
    /// The list's address.
    list: u64,
    /// The number of entries.
    count: u64,
}

/// Takes the entries, or those up to and with the first that is no page, as one read, and puts them behind the
/// pages, which have room. Whether each is a page.
fn take_entries(
    alloc: Global,
    lane: &Lane,
    entries: Entries,
    pages: &mut Vec<u64>,
    reads: &mut Reads,
) -> Result<bool, NoMemory>
    requires few { entries.count ≤ 511 }
    requires list { IsInRam entries.list 4096 }
    requires room { vec_len pages.old + entries.count ≤ vec_capacity pages.old }
    ensures ok { IfOk result (λ are_pages.
        IsSomeAnd (over_lane (take_words entries.list entries.count is_page) lane.now reads.old) (λ taken.
        (taken.1 ≡ reads.new) × AppendsEntries taken.0 are_pages pages.old.items pages.new.items)) }
    ensures len { vec_len pages.new ≤ vec_len pages.old + entries.count }
    ensures capacity { vec_capacity pages.new ≡ vec_capacity pages.old }
    ensures err { OnErr result (reads.new ≡ reads.old) }
{
    let found = pages.len();
    let bytes = lane.at(entries.list, 8 * entries.count);
    let are_pages = push_up_to_bad(pages, bytes, entries.count as usize);
    let taken = pages.len() - found;
    reads.add(alloc, entries.list, &bytes[..8 * taken])?;
    Ok(are_pages)
}

/// Puts the words that the bytes make behind the pages, or those up to and with the first that is no page. Whether
/// each is a page.
fn push_up_to_bad(pages: &mut Vec<u64>, bytes: &[u8], count: usize) -> bool
    requires whole { length bytes.now ≡ 8 * count }
    requires few { count ≤ 511 }
    requires room { vec_len pages.old + count ≤ vec_capacity pages.old }
    ensures words { IsSomeAnd (up_to_failing is_page (words_of count bytes.now) count) (λ words.
        AppendsEntries words result pages.old.items pages.new.items) }
    ensures kept { vec_len pages.old ≤ vec_len pages.new }
    ensures len { vec_len pages.new ≤ vec_len pages.old + count }
    ensures capacity { vec_capacity pages.new ≡ vec_capacity pages.old }
{
    for i in 0..count {
        let word = first_word(&bytes[8 * i..]);
        pages.push_reserved(word);
        if !is_page(word) {
            return false;
        }
    }
    true
}

/// The word that the bytes begin with.
fn first_word(bytes: &[u8]) -> u64
    requires { 8 ≤ length bytes.now }
    ensures { result ≡ from_le_bytes w64 (take 8 bytes.now) }
{
    let mut word = [0; 8];
    word.copy_from_slice(&bytes[..8]);
    u64::from_le_bytes(word)
}
