//! A source over bytes that the caller lends.
ghost use Rattle.std.specs.Prelude.{◌≡◌, ◌≢◌, ℕ, ◌<◌, ◌≤◌, ◌⊎◌, [], Some, length, take};
ghost use Rattle.ports.specs.Port.{IfBytes, Moves, Rose};

use ports::{Source, Taken};

/// Lent bytes. No call of it fails.
#[derive(Drop)]
pub struct SliceSource<'a> {
    left: &'a [u8],
}

impl<'a> SliceSource<'a> {
    /// A source of these bytes.
    pub fn new(bytes: &'a [u8]) -> SliceSource<'a>
        ensures { result.left.now ≡ bytes.now }
    {
        SliceSource { left: bytes }
    }
}

impl<'a> Source for SliceSource<'a> {
    ghost use Rattle.std.specs.Prelude.{Some};

    ghost left = { λ s. Some s.left.now };

    ghost faults = { λ s. 0 };

    fn take(&mut self, buf: &mut [u8]) -> Taken {
        let count = self.left.len().min(buf.len());
        if count == 0 {
            return Taken::End;
        }
        let (front, rest) = self.left.split_at(count);
        buf[..count].copy_from_slice(front);
        self.left = rest;
        Taken::Bytes(count)
    }
}
