ghost use Rattle.std.specs.Prelude.{◌≡◌, ℕ, ◌+◌, ◌^◌, ◌<◌, ◌≤◌, ◌↔◌, List, drop, length, replicate, slice_get, slice_set, take, IsTrue, IfOk, Option};
ghost use Rattle.ta_step.specs.Bytes.{has_bytes, overwritten, word_at, written};

use crate::{part_access, word_access};
use base::NoMemory;
use std::alloc::Global;
use std::marker::Model;

/// The memory of an instance of an application, as bytes from address 0 on.
pub trait TaMemory {
    /// What it means: the bytes, from address 0 on.
    ghost bytes: { Self → List ℕ };

    /// The byte at an address, or `None` where there is none.
    fn load(&self, addr: u32) -> Option<u8>
        ensures { result ≡ slice_get (bytes self.now) addr };

    /// Writes the byte at an address and no other, or answers `false` where there is none.
    fn store(&mut self, addr: u32, value: u8) -> bool
        ensures stored { IsTrue result ↔ (addr < length (bytes self.old)) }
        ensures bytes { bytes self.new ≡ slice_set (bytes self.old) addr value };

    /// The word from an address on, its lowest byte first, if its four bytes are all there.
    fn load_word(&self, addr: u32) -> Option<u32>
        requires { addr + 4 < 2 ^ 32 }
        ensures { result ≡ word_at (bytes self.now) addr };

    /// Writes the four bytes of a word, its lowest first, from an address on and no others, or answers `false` where
    /// they are not all there.
    fn store_word(&mut self, addr: u32, word: [u8; 4]) -> bool
        requires { addr + 4 < 2 ^ 32 }
        ensures inside { result ≡ has_bytes (bytes self.old) addr 4 }
        ensures bytes { bytes self.new ≡ written (bytes self.old) addr word };

    /// Copies the bytes from an address on out, which are all there.
    fn read(&self, addr: u32, out: &mut [u8])
        requires { addr + length out.old ≤ length (bytes self.now) }
        ensures { out.new ≡ take (length out.old) (drop addr (bytes self.now)) };

    /// Bytes from an address on, of which there are some: as many as lie in one piece, and at least one.
    fn part(&self, addr: u32) -> &[u8]
        requires { addr < length (bytes self.now) }
        ensures part { result.now ≡ take (length result.now) (drop addr (bytes self.now)) }
        ensures some { 0 < length result.now };

    /// Writes a part over the bytes from an address on, which are all there, and over no others.
    fn write(&mut self, addr: u32, part: &[u8])
        requires { addr + length part.now ≤ length (bytes self.old) }
        ensures { bytes self.new ≡ overwritten (bytes self.old) addr part.now };
}

/// A memory in one list of bytes. Contracts see that list.
#[derive(Drop)]
pub struct Plain {
    bytes: Vec<u8>,
}

impl Model for Plain {
    ghost use Rattle.std.specs.Prelude.{List, ℕ};

    ghost Value = { List ℕ };

    ghost view = { λ p. p.bytes.items };
}

impl Plain {
    /// A memory of so many zeros.
    pub fn new(alloc: Global, len: u32) -> Result<Plain, NoMemory>
        ensures { IfOk result (λ memory. memory ≡ replicate len 0) }
    {
        Ok(Plain {
            bytes: vec![in alloc; 0; len as usize]?,
        })
    }
}

impl TaMemory for Plain {
    ghost bytes = { λ p. p };

    fn load(&self, addr: u32) -> Option<u8> {
        self.bytes.as_slice().get(addr as usize).copied()
    }

    fn store(&mut self, addr: u32, value: u8) -> bool {
        let found = (addr as usize) < self.bytes.len();
        if found {
            self.bytes[addr as usize] = value;
        }
        found
    }

    fn load_word(&self, addr: u32) -> Option<u32> {
        word_access::word_in(self.bytes.as_slice(), addr)
    }

    fn store_word(&mut self, addr: u32, word: [u8; 4]) -> bool {
        word_access::put_word_in(self.bytes.as_mut_slice(), addr, word)
    }

    fn read(&self, addr: u32, out: &mut [u8]) {
        part_access::copy_part(self.bytes.as_slice(), addr as usize, out);
    }

    fn part(&self, addr: u32) -> &[u8] {
        &self.bytes.as_slice()[addr as usize..]
    }

    fn write(&mut self, addr: u32, part: &[u8]) {
        part_access::put_part(self.bytes.as_mut_slice(), addr as usize, part);
    }
}
