ghost use Rattle.std.specs.Prelude.{◌≡◌, ◌+◌, ◌-◌, ◌*◌, ◌<◌, ◌≤◌, ◌↔◌, []};
ghost use Rattle.std.specs.Prelude.{length, vec_len, vec_capacity, IfOk, IfErr, IsErr, MatchResult};
ghost use Rattle.std.specs.List.{concat};
ghost use Rattle.base.specs.Zeros.{zeros};
ghost use Rattle.frame_pool.specs.Pages.{AreWhole, page_count};
ghost use Rattle.frame_pool.specs.Pool.{Frames};

use crate::frame::{Frame, PAGE_BYTES};
use crate::pages::Pages;
use crate::rooms::{Lent, Rooms, move_rooms};
use crate::short::Short;
use base::NoMemory;
use std::alloc::Global;
use std::marker::Model;

/// The page frames of a core. Contracts see how many there are in all, and how many of them are free.
#[derive(Drop)]
pub struct Pool {
    frames: u16,
    free: Vec<Frame>,
    rooms: Rooms,
}

impl Model for Pool {
    ghost use Rattle.std.specs.Prelude.{◌≤◌, vec_len, vec_capacity};
    ghost use Rattle.frame_pool.specs.Pages.{AreWhole};
    ghost use Rattle.frame_pool.specs.Pool.{Frames};

    ghost Value = { Frames };

    ghost view = { λ pool. record { frames = pool.frames; free = vec_len pool.free } };

    ghost invariant = { λ pool. (vec_len pool.free ≤ pool.frames) × (pool.frames ≤ vec_capacity pool.free)
        × (pool.frames ≤ 1024) × AreWhole pool.free.items × (vec_len pool.free ≤ pool.rooms) };
}

impl Pool {
    /// A pool of so many frames, all free. No call after this one takes memory.
    pub fn new(alloc: Global, frames: u16) -> Result<Pool, NoMemory>
        requires some { 0 < frames }
        requires at_most { frames ≤ 1024 }
        ensures { IfOk result (λ pool. pool ≡ record { frames = frames; free = frames }) }
    {
        let mut free = Vec::with_capacity(alloc, usize::from(frames))?;
        let mut rooms = Rooms::none();
        for _i in 0..frames {
            free.push_reserved(Frame::new(alloc, PAGE_BYTES)?);
            rooms.add(alloc)?;
        }
        Ok(Pool {
            frames,
            free,
            rooms,
        })
    }

    /// How many pages are free.
    pub fn free(&self) -> u16
        ensures free { result ≡ self.now.free }
        ensures at_most { self.now.free ≤ self.now.frames }
        ensures in_all { self.now.frames ≤ 1024 }
    {
        self.free.len() as u16
    }

    /// Gives `n` pages of zeros, or tells how many are free where these are fewer.
    pub fn take(&mut self, n: u16) -> Result<Pages, Short>
        requires { n ≤ 64 }
        ensures short { IsErr result ↔ (self.old.free < n) }
        ensures free { IfErr result (λ short. short.0 ≡ self.old.free) }
        ensures zeros { IfOk result (λ pages. pages ≡ zeros (4096 * n)) }
        ensures count { IfOk result (λ pages. page_count pages ≡ n) }
        ensures after { MatchResult result
            (λ _. self.new ≡ record self.old { free = self.old.free - n })
            (λ _. self.new ≡ self.old) }
    {
        let free = self.free();
        if free < n {
            return Err(Short(free));
        }
        Ok(take_cleared(&mut self.free, &mut self.rooms, n))
    }

    /// Takes pages back.
    pub fn release(&mut self, pages: Pages)
        requires { page_count pages ≤ self.old.frames - self.old.free }
        ensures { self.new ≡ record self.old { free = self.old.free + page_count pages } }
    {
        put_back(&mut self.free, &mut self.rooms, pages);
    }
}

/// Moves `n` frames and as many rooms out of the free ones, and makes pages of zeros of them.
fn take_cleared(free: &mut Vec<Frame>, rooms: &mut Rooms, n: u16) -> Pages
    requires enough { n ≤ vec_len free.old }
    requires at_most { n ≤ 64 }
    requires rooms { n ≤ rooms.old }
    requires whole { AreWhole free.old.items }
    ensures zeros { result ≡ zeros (4096 * n) }
    ensures count { page_count result ≡ n }
    ensures len { vec_len free.new + n ≡ vec_len free.old }
    ensures rooms { rooms.new + n ≡ rooms.old }
    ensures room { vec_capacity free.new ≡ vec_capacity free.old }
    ensures whole { AreWhole free.new.items }
{
    let alloc = *free.allocator();
    if n == 0 {
        return Pages::none(alloc);
    }
    let (mut frames, lent) = Lent::out_of(rooms, n, alloc);
    fill_cleared(&mut frames, free, n);
    Pages::of(frames, lent)
}

/// Moves `n` frames out of the free ones into an empty list, and makes zeros of their bytes.
fn fill_cleared(frames: &mut Vec<Frame>, free: &mut Vec<Frame>, n: u16)
    requires empty { frames.old.items ≡ [] }
    requires fits { n ≤ vec_capacity frames.old }
    requires enough { n ≤ vec_len free.old }
    requires whole { AreWhole free.old.items }
    ensures zeros { concat frames.new.items ≡ zeros (4096 * n) }
    ensures count { length frames.new.items ≡ n }
    ensures pages { AreWhole frames.new.items }
    ensures fits { vec_capacity frames.new ≡ vec_capacity frames.old }
    ensures len { vec_len free.new + n ≡ vec_len free.old }
    ensures room { vec_capacity free.new ≡ vec_capacity free.old }
    ensures whole { AreWhole free.new.items }
{
    for _i in 0..n {
        frames.push_reserved(pop_cleared(free));
    }
}

/// Moves one frame out of the free ones, and makes zeros of its bytes.
fn pop_cleared(free: &mut Vec<Frame>) -> Frame
    requires some { 0 < vec_len free.old }
    requires whole { AreWhole free.old.items }
    ensures zeros { result ≡ zeros 4096 }
    ensures len { vec_len free.new + 1 ≡ vec_len free.old }
    ensures room { vec_capacity free.new ≡ vec_capacity free.old }
    ensures whole { AreWhole free.new.items }
{
    let mut frame = pop_frame(free);
    frame.clear();
    frame
}

/// Moves one frame out of the free ones, with the bytes that it was released with.
fn pop_frame(free: &mut Vec<Frame>) -> Frame
    requires some { 0 < vec_len free.old }
    requires whole { AreWhole free.old.items }
    ensures page { length result ≡ 4096 }
    ensures len { vec_len free.new + 1 ≡ vec_len free.old }
    ensures room { vec_capacity free.new ≡ vec_capacity free.old }
    ensures whole { AreWhole free.new.items }
{
    free.pop().unwrap()
}

/// Moves the frames of the pages behind the free ones, and as many of their rooms to the others.
fn put_back(free: &mut Vec<Frame>, rooms: &mut Rooms, pages: Pages)
    requires room { vec_len free.old + page_count pages ≤ vec_capacity free.old }
    requires whole { AreWhole free.old.items }
    ensures len { vec_len free.new ≡ vec_len free.old + page_count pages }
    ensures rooms { rooms.new ≡ rooms.old + page_count pages }
    ensures room { vec_capacity free.new ≡ vec_capacity free.old }
    ensures whole { AreWhole free.new.items }
{
    let n = pages.count();
    let (mut frames, lent) = pages.into_parts();
    move_frames(&mut frames, free);
    move_rooms(&mut lent.complete(frames), rooms, n);
}

/// Moves all of these frames behind the free ones.
fn move_frames(frames: &mut Vec<Frame>, free: &mut Vec<Frame>)
    requires room { vec_len free.old + vec_len frames.old ≤ vec_capacity free.old }
    requires pages { AreWhole frames.old.items }
    requires whole { AreWhole free.old.items }
    ensures none { frames.new.items ≡ [] }
    ensures fits { vec_capacity frames.new ≡ vec_capacity frames.old }
    ensures len { vec_len free.new ≡ vec_len free.old + vec_len frames.old }
    ensures room { vec_capacity free.new ≡ vec_capacity free.old }
    ensures whole { AreWhole free.new.items }
{
    for _i in 0..frames.len() {
        let frame = frames.pop().unwrap();
        free.push_reserved(frame);
    }
}
