ghost use Rattle.std.specs.Prelude.{◌≡◌, ◌+◌, ◌<◌, ◌≤◌, [], IfOk, vec_capacity};
ghost use Rattle.frame_pool.specs.Rooms.{AreReady, behind_first, rooms_in};

use crate::frame::Frame;
use crate::pages::MAX_PAGES;
use base::NoMemory;
use std::alloc::Global;
use std::marker::Model;
use std::mem;

/// A list for the frames of one owner, in a chain of such lists.
#[cycle(rooms)]
#[derive(Drop)]
pub(crate) struct Room {
    frames: Vec<Frame>,
    next: Link,
}

/// A chain of rooms.
#[cycle(rooms)]
enum Link {
    End,
    More(Box<Room>),
}

/// A loop, so that a long chain does not run out of stack.
impl Drop for Link {
    fn drop(mut self) {
        loop {
            match self {
                Link::End => return,
                Link::More(room) => {
                    let Room { frames: _, next } = Box::into_inner(room);
                    self = next;
                }
            }
        }
    }
}

impl Link {
    /// The first room, with the others behind it.
    fn into_room(self) -> Box<Room>
        requires { 0 < rooms_in self }
        ensures rooms { rooms_in result.value.next + 1 ≡ rooms_in self }
        ensures empty { AreReady self → result.value.frames.items ≡ [] }
        ensures fits { AreReady self → 64 ≤ vec_capacity result.value.frames }
        ensures others { AreReady self → AreReady result.value.next }
    {
        match self {
            Link::End => unreachable!(),
            Link::More(room) => room,
        }
    }

    /// The same rooms, where the first one's list is this one.
    fn with_list(self, list: Vec<Frame>) -> Link
        requires empty { list.items ≡ [] }
        requires fits { 0 < rooms_in self → 64 ≤ vec_capacity list }
        ensures rooms { rooms_in result ≡ rooms_in self }
        ensures ready { AreReady (behind_first self) → AreReady result }
    {
        match self {
            Link::End => Link::End,
            Link::More(mut room) => {
                room.frames = list;
                Link::More(room)
            }
        }
    }
}

/// Rooms, one behind the other, whose lists are empty and hold as many frames as an owner has at most. Contracts see
/// how many there are.
#[derive(Drop)]
pub(crate) struct Rooms {
    first: Link,
}

impl Model for Rooms {
    ghost use Rattle.std.specs.Prelude.{ℕ};
    ghost use Rattle.frame_pool.specs.Rooms.{AreReady, rooms_in};

    ghost Value = { ℕ };

    ghost view = { λ rooms. rooms_in rooms.first };

    ghost invariant = { λ rooms. AreReady rooms.first };
}

impl Rooms {
    /// No rooms. Takes no memory.
    pub(crate) fn none() -> Rooms
        ensures { result ≡ 0 }
    {
        Rooms { first: Link::End }
    }

    /// Makes one room more.
    pub(crate) fn add(&mut self, alloc: Global) -> Result<(), NoMemory>
        ensures { IfOk result (λ _. self.new ≡ self.old + 1) }
    {
        let frames = Vec::with_capacity(alloc, MAX_PAGES)?;
        let room = Box::new(
            alloc,
            Room {
                frames,
                next: Link::End,
            },
        )?;
        self.put(room);
        Ok(())
    }

    /// Puts a room before the others.
    pub(crate) fn put(&mut self, mut room: Box<Room>)
        requires empty { room.value.frames.items ≡ [] }
        requires fits { 64 ≤ vec_capacity room.value.frames }
        ensures { self.new ≡ self.old + 1 }
    {
        room.next = mem::replace(&mut self.first, Link::End);
        self.first = Link::More(room);
    }

    /// Takes the first room out.
    pub(crate) fn pop(&mut self) -> Box<Room>
        requires { 0 < self.old }
        ensures empty { result.value.frames.items ≡ [] }
        ensures fits { 64 ≤ vec_capacity result.value.frames }
        ensures rooms { self.new + 1 ≡ self.old }
    {
        let mut room = mem::replace(&mut self.first, Link::End).into_room();
        self.first = mem::replace(&mut room.next, Link::End);
        room
    }
}

/// Moves so many rooms before others.
pub(crate) fn move_rooms(from: &mut Rooms, to: &mut Rooms, n: u16)
    requires { n ≤ from.old }
    ensures from { from.new + n ≡ from.old }
    ensures to { to.new ≡ to.old + n }
{
    for _i in 0..n {
        to.put(from.pop());
    }
}

/// Rooms of which the first one's list is out. Contracts see how many there are.
#[derive(Drop)]
pub(crate) struct Lent {
    first: Link,
}

impl Model for Lent {
    ghost use Rattle.std.specs.Prelude.{ℕ};
    ghost use Rattle.frame_pool.specs.Rooms.{AreReady, behind_first, rooms_in};

    ghost Value = { ℕ };

    ghost view = { λ lent. rooms_in lent.first };

    ghost invariant = { λ lent. AreReady (behind_first lent.first) };
}

impl Lent {
    /// No rooms. Takes no memory.
    pub(crate) fn none() -> Lent
        ensures { result ≡ 0 }
    {
        Lent { first: Link::End }
    }

    /// Takes so many rooms out of these, and the list out of the first of them.
    pub(crate) fn out_of(rooms: &mut Rooms, n: u16, alloc: Global) -> (Vec<Frame>, Lent)
        requires some { 0 < n }
        requires enough { n ≤ rooms.old }
        ensures empty { result.0.items ≡ [] }
        ensures fits { 64 ≤ vec_capacity result.0 }
        ensures lent { result.1 ≡ n }
        ensures rooms { rooms.new + n ≡ rooms.old }
    {
        let mut room = rooms.pop();
        let list = mem::replace(&mut room.frames, Vec::new(alloc));
        let mut others = Rooms::none();
        move_rooms(rooms, &mut others, n - 1);
        let Rooms { first } = others;
        room.next = first;
        (
            list,
            Lent {
                first: Link::More(room),
            },
        )
    }

    /// These rooms with all their lists, where this one is the first one's.
    pub(crate) fn complete(self, list: Vec<Frame>) -> Rooms
        requires empty { list.items ≡ [] }
        requires fits { 0 < self → 64 ≤ vec_capacity list }
        ensures { result ≡ self }
    {
        let Lent { first } = self;
        Rooms {
            first: first.with_list(list),
        }
    }
}
