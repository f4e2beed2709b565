ghost use Rattle.std.specs.Prelude.{◌≡◌, length};
ghost use Rattle.ns_ram.specs.Lane.{IsInRam};
ghost use Rattle.ns_ram.specs.Writes.{IsWriteOfRam};

use std::marker::Model;

/// Bytes that go to an address of RAM.
#[derive(Drop)]
pub struct RamWrite {
    addr: u64,
    bytes: Vec<u8>,
}

impl Model for RamWrite {
    ghost use Rattle.std.specs.Prelude.{length};
    ghost use Rattle.ns_ram.specs.Lane.{IsInRam};
    ghost use Rattle.ns_ram.specs.Writes.{Write};

    ghost Value = { Write };

    ghost view = { λ write. record { addr = write.addr; bytes = write.bytes.items } };

    ghost invariant = { λ write. IsInRam write.addr (length write.bytes.items) };
}

impl RamWrite {
    /// These bytes, to this address.
    pub fn new(addr: u64, bytes: Vec<u8>) -> RamWrite
        requires { IsInRam addr (length bytes.items) }
        ensures { result ≡ record { addr = addr; bytes = bytes.items } }
    {
        RamWrite { addr, bytes }
    }

    /// The address of the first byte.
    pub fn addr(&self) -> u64
        ensures addr { result ≡ self.now.addr }
    {
        self.addr
    }

    /// The bytes.
    pub fn bytes(&self) -> &[u8]
        ensures bytes { result.now ≡ self.now.bytes }
        ensures inside { IsWriteOfRam self.now }
    {
        self.bytes.as_slice()
    }
}
