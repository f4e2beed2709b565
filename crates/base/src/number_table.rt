ghost use Rattle.std.specs.Prelude.{◌≡◌, ◌<◌, ◌==◌, [], IfOk, IsSome, None, Some, is_some, length};
ghost use Rattle.std.specs.Borrow.{sem};
ghost use Rattle.std.specs.Option.{option_copied};
ghost use Rattle.base.specs.NumberMap.{IsRising, IsTable, get, insert, remove};
ghost use Rattle.base.specs.Places.{IsAt, IsBefore, IsPlaceOf};

use crate::no_memory::NoMemory;
use std::alloc::Global;
use std::marker::Model;

/// Values by their numbers, with room for `ROOM` of them. Contracts see the finite map. Only `new` takes memory.
#[derive(Drop)]
pub struct NumberTable<T, const ROOM: usize> {
    // In rising order of numbers.
    entries: Vec<(u64, T)>,
}

impl<T, const ROOM: usize> Model for NumberTable<T, ROOM> {
    ghost use Rattle.std.specs.Prelude.{◌≤◌, vec_capacity};
    ghost use Rattle.base.specs.NumberMap.{IsTable, NumberMap};

    ghost Value = { NumberMap T };

    ghost view = { λ t. t.entries.items };

    ghost invariant = { λ t. IsTable ROOM t.entries.items × (ROOM ≤ vec_capacity t.entries) };
}

impl<T, const ROOM: usize> NumberTable<T, ROOM> {
    ghost use Rattle.base.specs.Lends.{LendsValue};

    /// No values, with room for `ROOM`.
    pub fn new(alloc: Global) -> Result<Self, NoMemory>
        ensures { IfOk result (λ table. table ≡ []) }
    {
        Ok(NumberTable {
            entries: Vec::with_capacity(alloc, ROOM)?,
        })
    }

    /// The numbers with their values, in rising order of the numbers.
    pub fn entries(&self) -> &[(u64, T)]
        ensures entries { result.now ≡ self.now }
        ensures table { IsTable ROOM self.now }
    {
        self.entries.as_slice()
    }

    /// How many values are kept.
    pub fn len(&self) -> usize
        ensures len { result ≡ length self.now }
        ensures table { IsTable ROOM self.now }
    {
        self.entries.len()
    }

    /// Whether there is no room for another.
    pub fn is_full(&self) -> bool
        ensures { result ≡ (length self.now == ROOM) }
    {
        self.entries.len() == ROOM
    }

    /// Whether a value is kept at the number.
    pub fn contains(&self, number: u64) -> bool
        ensures { result ≡ is_some (get self.now number) }
    {
        search(self.entries.as_slice(), number).is_ok()
    }

    /// The value at the number, if one is kept.
    pub fn get(&self, number: u64) -> Option<&T>
        ensures value { option_copied result ≡ get self.now number }
        ensures table { IsTable ROOM self.now }
    {
        let Ok(place) = search(self.entries.as_slice(), number) else {
            return None;
        };
        Some(&self.entries[place].1)
    }

    /// The value at the number, to be changed.
    pub fn get_mut(&mut self, number: u64) -> &mut T
        requires { IsSome (get self.old number) }
        ensures* writes_back { sem 𝓛 (LendsValue T.row ROOM.row self.entry number result) }
        ensures value { get self.old number ≡ Some result.now }
    {
        let place = place_of(self.entries.as_slice(), number);
        let entry = &mut self.entries[place];
        &mut entry.1
    }

    /// Keeps a value at a number that has none.
    pub fn insert(&mut self, number: u64, value: T)
        requires absent { get self.old number ≡ None }
        requires room { length self.old < ROOM }
        ensures { self.new ≡ insert self.old number value }
    {
        let place = place_for(self.entries.as_slice(), number);
        self.entries.insert(place, (number, value)).unwrap();
    }

    /// Takes the value at the number away.
    pub fn remove(&mut self, number: u64) -> T
        requires { IsSome (get self.old number) }
        ensures value { get self.old number ≡ Some result }
        ensures after { self.new ≡ remove self.old number }
    {
        let place = place_of(self.entries.as_slice(), number);
        let (_number, value) = self.entries.remove(place);
        value
    }
}

/// Where the number stands, or else where it would.
fn search<T>(entries: &[(u64, T)], number: u64) -> Result<usize, usize>
    requires { IsRising entries.now }
    ensures { IsPlaceOf entries.now number result }
{
    entries.binary_search_by_key(&number, |entry| entry.0)
}

/// Where the number stands.
fn place_of<T>(entries: &[(u64, T)], number: u64) -> usize
    requires rising { IsRising entries.now }
    requires kept { IsSome (get entries.now number) }
    ensures { IsAt T entries.now number result }
{
    let Ok(place) = search(entries, number) else {
        unreachable!()
    };
    place
}

/// Where a number would stand that has no value.
fn place_for<T>(entries: &[(u64, T)], number: u64) -> usize
    requires rising { IsRising entries.now }
    requires absent { get entries.now number ≡ None }
    ensures { IsBefore T entries.now number result }
{
    let Err(place) = search(entries, number) else {
        unreachable!()
    };
    place
}
