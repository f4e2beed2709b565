ghost use Rattle.std.specs.Prelude.{◌≡◌, length};
ghost use Rattle.ns_ram.specs.Lane.{IsInRam, bytes_at, bytes_put};

use crate::port::SmcPort;

/// A port whose caller reads and writes the RAM that both sides see, between its SMCs.
pub trait World: SmcPort {
    /// Copies the bytes at `addr` out, as many as `out` takes.
    fn peek(&self, addr: u64, out: &mut [u8])
        requires { IsInRam addr (length out.old) }
        ensures bytes { out.new ≡ bytes_at (Self.ram self.now) addr (length out.old) }
        ensures whole { length (Self.ram self.now) ≡ 0x400000 };

    /// Copies the bytes to `addr`, and changes no other byte. It makes no SMC.
    fn poke(&mut self, addr: u64, bytes: &[u8])
        requires { IsInRam addr (length bytes.now) }
        ensures bytes { Self.ram self.new ≡ bytes_put (Self.ram self.old) addr bytes.now }
        ensures made { Self.made self.new ≡ Self.made self.old }
        ensures whole { length (Self.ram self.new) ≡ 0x400000 };
}
