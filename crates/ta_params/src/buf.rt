ghost use Rattle.std.specs.Prelude.{◌≡◌};
ghost use Rattle.std.specs.Borrow.{Lends, Array, sem, u8 as byte};
ghost use Rattle.ta_params.specs.Buf.{written_over};
ghost use Rattle.ta_params.specs.contracts.buf.Buf.{the_row};

use std::alloc::AllocError;
use std::marker::Model;

/// The bytes of a memory parameter, copied out of shared memory. Contracts see the list of them.
#[derive(Debug, Drop)]
pub struct Buf {
    bytes: Vec<u8>,
}

impl Model for Buf {
    ghost use Rattle.std.specs.Prelude.{List, ℕ};

    ghost Value = { List ℕ };

    ghost view = { λ b. b.bytes.items };
}

impl Buf {
    /// The buffer of these bytes. Takes no memory.
    pub fn of(bytes: Vec<u8>) -> Buf
        ensures { result ≡ bytes.items }
    {
        Buf { bytes }
    }

    /// Its bytes, lent to read.
    pub fn bytes(&self) -> &[u8]
        ensures { result.now ≡ self.now }
    {
        self.bytes.as_slice()
    }

    /// The bytes to be written over. Their number stays, and nothing is copied.
    pub fn bytes_mut(&mut self) -> &mut [u8]
        // Once the borrow is over, the buffer is what was written there.
        ensures* writes_back { sem 𝓛 (Lends the_row (Array byte 0) self.entry result (written_over self.old)) }
        ensures value { result.now ≡ self.old }
    {
        self.bytes.as_mut_slice()
    }
}

impl Clone for Buf {
    ghost is_clone = { λ buf copy. copy ≡ buf };

    fn clone(&self) -> Result<Buf, AllocError> {
        Ok(Buf {
            bytes: self.bytes.clone()?,
        })
    }
}
