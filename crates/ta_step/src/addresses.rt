//! The addresses of a machine: which bytes stand where.
ghost use Rattle.std.specs.Prelude.{◌≡◌, ◌+◌, ◌%◌, ◌<◌, ◌≤◌, [], ◌∷◌, drop, length, take, true};
ghost use Rattle.ta_step.specs.Addresses.{is_inside, is_range, load, load_word, range_at, store};
ghost use Rattle.ta_step.specs.Machine.{state_of};

use crate::machine::Machine;
use crate::memory::TaMemory;
use crate::{access, parameters};

/// How far apart the ranges of addresses begin: the instance's memory at 0, and the buffer of parameter k
/// at `RANGE * (k + 1)`.
pub const RANGE: u32 = 0x1000_0000;

impl<M: TaMemory> Machine<M> {
    /// The byte at an address of the instance's memory or of a parameter's buffer, or `None` where the
    /// address is in none of them.
    pub fn load(&self, addr: u32) -> Option<u8>
        ensures { result ≡ load (state_of M.bytes self.now) addr }
    {
        let place = addr % RANGE;
        match addr / RANGE {
            0 => self.memory.load(place),
            number => parameters::load(&self.params, number - 1, place),
        }
    }

    /// Writes the byte at an address and no other, or answers `false` where the address is in no range.
    pub fn store(&mut self, addr: u32, value: u8) -> bool
        ensures found { result ≡ is_inside (state_of M.bytes self.old) addr 1 }
        ensures state { state_of M.bytes self.new ≡ store (state_of M.bytes self.old) addr (value ∷ []) }
    {
        match addr / RANGE {
            0 => access::store_byte(&mut self.memory, addr % RANGE, value),
            _ => self.write(addr, &[value]),
        }
    }

    /// The word from an address on, its lowest byte first, if its four bytes are all in one range.
    pub(crate) fn word_at(&self, addr: u32) -> Option<u32>
        ensures { result ≡ load_word (state_of M.bytes self.now) addr }
    {
        let place = addr % RANGE;
        match addr / RANGE {
            0 => self.memory.load_word(place),
            number => parameters::load_word(&self.params, number - 1, place),
        }
    }

    /// Writes a word, its lowest byte first, to an address, or answers `false` where its four bytes are not all in
    /// one range.
    pub(crate) fn store_word(&mut self, addr: u32, word: [u8; 4]) -> bool
        ensures inside { result ≡ is_inside (state_of M.bytes self.old) addr 4 }
        ensures state { state_of M.bytes self.new ≡ store (state_of M.bytes self.old) addr word }
    {
        match addr / RANGE {
            0 => self.memory.store_word(addr % RANGE, word),
            _ => self.write(addr, &word),
        }
    }

    /// Whether so many bytes from an address on are all there, in the range that it names.
    fn is_inside(&self, addr: u32, count: u32) -> bool
        requires some { 0 < count }
        requires fits { addr % 0x10000000 + count ≤ 0x10000000 }
        ensures { result ≡ is_inside (state_of M.bytes self.now) addr count }
    {
        let place = addr % RANGE;
        match addr / RANGE {
            0 => access::has_bytes(&self.memory, place, count),
            number => parameters::has_bytes(&self.params, number - 1, place, count),
        }
    }

    /// Whether so many bytes from an address on are all in one range. No bytes are, at every address.
    pub(crate) fn is_range(&self, addr: u32, count: u32) -> bool
        ensures { result ≡ is_range (state_of M.bytes self.now) addr count }
    {
        count == 0 || (count <= RANGE - addr % RANGE && self.is_inside(addr, count))
    }

    /// Copies the bytes from an address on out, which are all in one range.
    pub fn read(&self, addr: u32, out: &mut [u8])
        requires some { 0 < length out.old }
        requires inside { is_inside (state_of M.bytes self.now) addr (length out.old) ≡ true }
        ensures { let place = addr % 0x10000000 in
            out.new ≡ take (length out.old) (drop place (range_at (state_of M.bytes self.now) addr)) }
    {
        let place = addr % RANGE;
        match addr / RANGE {
            0 => self.memory.read(place, out),
            number => parameters::read(&self.params, number - 1, place, out),
        }
    }

    /// Bytes from an address on, of which there are some in its range: as many as lie in one piece, and at least one.
    pub fn part(&self, addr: u32) -> &[u8]
        requires { is_inside (state_of M.bytes self.now) addr 1 ≡ true }
        ensures part { let place = addr % 0x10000000 in
            result.now ≡ take (length result.now) (drop place (range_at (state_of M.bytes self.now) addr)) }
        ensures some { 0 < length result.now }
    {
        let place = addr % RANGE;
        match addr / RANGE {
            0 => self.memory.part(place),
            number => parameters::part(&self.params, number - 1, place),
        }
    }

    /// Writes bytes from an address on, or answers `false` where they are not all in one range.
    pub fn write(&mut self, addr: u32, bytes: &[u8]) -> bool
        requires some { 0 < length bytes.now }
        requires few { length bytes.now ≤ 0x10000000 }
        ensures inside { result ≡ is_inside (state_of M.bytes self.old) addr (length bytes.now) }
        ensures state { state_of M.bytes self.new ≡ store (state_of M.bytes self.old) addr bytes.now }
    {
        let place = addr % RANGE;
        match addr / RANGE {
            0 => access::write_bytes(&mut self.memory, place, bytes),
            number => parameters::write(&mut self.params, number - 1, place, bytes),
        }
    }
}
