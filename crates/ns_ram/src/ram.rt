ghost use Rattle.std.specs.Prelude.{◌↔◌, IsTrue};
ghost use Rattle.ns_ram.specs.Lane.{IsInRam};

/// The physical address of the first byte of RAM.
pub const RAM_START: u64 = 0x40000000;

/// The number of bytes of RAM: 4 MiB.
pub const RAM_BYTES: u64 = 0x400000;

/// Whether the `len` bytes at `addr` lie in RAM, all of them. No bytes lie there also at the address behind
/// the last byte.
pub fn in_ram(addr: u64, len: u64) -> bool
    ensures { IsTrue result ↔ IsInRam addr len }
{
    let Some(end) = addr.checked_add(len) else {
        return false;
    };
    RAM_START <= addr && end <= RAM_START + RAM_BYTES
}
