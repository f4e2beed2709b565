ghost use Rattle.std.specs.Prelude.{◌≡◌, ◌+◌, ◌<◌, ◌≤◌, [], drop, length, slice_get, slice_set, take, IfOk, Some};
ghost use Rattle.base.specs.Bytes.{overwritten};
ghost use Rattle.base.specs.Zeros.{zeros};
ghost use Rattle.ta_step.specs.Bytes.{word_at};

use base::NoMemory;
use std::alloc::Global;
use std::marker::Model;
use ta_step::{copy_part, put_part, put_word, word_of};

/// The bytes of a page.
pub const PAGE_BYTES: usize = 4096;

/// What one page lies in, which contracts see as the list of its bytes.
#[derive(Drop)]
pub(crate) struct Frame {
    bytes: Vec<u8>,
}

impl Model for Frame {
    ghost use Rattle.std.specs.Prelude.{ℕ, List};

    ghost Value = { List ℕ };

    ghost view = { λ frame. frame.bytes.items };
}

impl Frame {
    /// A frame of so many bytes.
    pub(crate) fn new(alloc: Global, len: usize) -> Result<Frame, NoMemory>
        ensures { IfOk result (λ frame. length frame ≡ len) }
    {
        Ok(Frame {
            bytes: vec![in alloc; 0; len]?,
        })
    }

    /// Makes zeros of all bytes.
    #[tactic(auto, unfolding(base::specs::Zeros::zeros))]
    pub(crate) fn clear(&mut self)
        ensures { self.new ≡ zeros (length self.old) }
    {
        self.bytes.fill(0);
    }

    pub(crate) fn get(&self, at: usize) -> u8
        requires { at < length self.now }
        ensures { slice_get self.now at ≡ Some result }
    {
        self.bytes[at]
    }

    pub(crate) fn set(&mut self, at: usize, value: u8)
        requires { at < length self.old }
        ensures { self.new ≡ slice_set self.old at value }
    {
        self.bytes[at] = value;
    }

    /// The word from a place on, its lowest byte first.
    pub(crate) fn word(&self, at: usize) -> u32
        requires { at + 4 ≤ length self.now }
        ensures { word_at self.now at ≡ Some result }
    {
        word_of(self.bytes.as_slice(), at)
    }

    /// Writes the four bytes of a word from a place on.
    pub(crate) fn set_word(&mut self, at: usize, word: [u8; 4])
        requires { at + 4 ≤ length self.old }
        ensures { self.new ≡ overwritten self.old at word }
    {
        put_word(self.bytes.as_mut_slice(), at, word);
    }

    /// Copies the bytes from a place on out, which are all there.
    pub(crate) fn read(&self, at: usize, out: &mut [u8])
        requires { at + length out.old ≤ length self.now }
        ensures { out.new ≡ take (length out.old) (drop at self.now) }
    {
        copy_part(self.bytes.as_slice(), at, out);
    }

    /// The bytes from a place on.
    pub(crate) fn part(&self, at: usize) -> &[u8]
        requires { at ≤ length self.now }
        ensures { result.now ≡ drop at self.now }
    {
        &self.bytes.as_slice()[at..]
    }

    /// Writes a part over the bytes from a place on, which are all there.
    pub(crate) fn write(&mut self, at: usize, part: &[u8])
        requires { at + length part.now ≤ length self.old }
        ensures { self.new ≡ overwritten self.old at part.now }
    {
        put_part(self.bytes.as_mut_slice(), at, part);
    }
}
