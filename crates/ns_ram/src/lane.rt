ghost use Rattle.std.specs.Prelude.{◌≡◌, length, IfOk};
ghost use Rattle.base.specs.Zeros.{zeros};
ghost use Rattle.ns_ram.specs.Lane.{IsInRam, bytes_at, bytes_put};

use crate::ram::{RAM_BYTES, RAM_START};
use base::NoMemory;
use std::alloc::Global;
use std::marker::Model;

/// The RAM that one processor sees, and that processor alone: each has a lane of its own. Contracts see the list of its
/// RAM_BYTES bytes. Addresses are physical ones: the first byte stands at RAM_START.
#[derive(Drop)]
pub struct Lane {
    bytes: Vec<u8>,
}

impl Model for Lane {
    ghost use Rattle.std.specs.Prelude.{◌≡◌, ℕ, List, length};

    ghost Value = { List ℕ };

    ghost view = { λ lane. lane.bytes.items };

    ghost invariant = { λ lane. length lane.bytes.items ≡ 0x400000 };
}

impl Lane {
    /// RAM of zeros.
    pub fn new(alloc: Global) -> Result<Lane, NoMemory>
        ensures zeros { IfOk result (λ lane. lane ≡ zeros 0x400000) }
        ensures whole { IfOk result (λ lane. length lane ≡ 0x400000) }
    {
        Ok(Lane {
            bytes: zeroed(alloc, RAM_BYTES as usize)?,
        })
    }

    /// The `len` bytes at `addr`, where they lie.
    pub fn at(&self, addr: u64, len: u64) -> &[u8]
        requires { IsInRam addr len }
        ensures bytes { result.now ≡ bytes_at self.now addr len }
        ensures len { length result.now ≡ len }
        ensures whole { length self.now ≡ 0x400000 }
    {
        let offset = (addr - RAM_START) as usize;
        &self.bytes[offset..offset + len as usize]
    }

    /// Copies the bytes at `addr` out, as many as `out` takes.
    pub fn read(&self, addr: u64, out: &mut [u8])
        requires { IsInRam addr (length out.old) }
        ensures bytes { out.new ≡ bytes_at self.now addr (length out.old) }
        ensures whole { length self.now ≡ 0x400000 }
    {
        out.copy_from_slice(self.at(addr, out.len() as u64));
    }

    /// Copies the bytes to `addr`, and changes no other byte.
    pub fn write(&mut self, addr: u64, bytes: &[u8])
        requires { IsInRam addr (length bytes.now) }
        ensures bytes { self.new ≡ bytes_put self.old addr bytes.now }
        ensures whole { length self.new ≡ 0x400000 }
    {
        let offset = (addr - RAM_START) as usize;
        self.bytes[offset..offset + bytes.len()].copy_from_slice(bytes);
    }
}

/// So many zeros.
#[tactic(auto, unfolding(base::specs::Zeros::zeros))]
fn zeroed(alloc: Global, count: usize) -> Result<Vec<u8>, NoMemory>
    ensures zeros { IfOk result (λ bytes. bytes.items ≡ zeros count) }
    ensures len { IfOk result (λ bytes. length bytes.items ≡ count) }
{
    Ok(vec![in alloc; 0; count]?)
}
