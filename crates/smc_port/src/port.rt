ghost use Rattle.std.specs.Prelude.{◌≡◌, ℕ, Bool, true, false, List, length, IfOk, OnOk, OnErr, IsErrOf};
ghost use Rattle.smc_abi.specs.declared.regs.Regs.{Regs};
ghost use Rattle.smc_port.specs.Smc.{Makes, Smc};

use smc_abi::Regs;
use std::error::Error;
use std::fmt;

/// Why a port makes no SMC. It is then as it was.
#[derive(Clone, Copy, Debug, PartialEq, Eq)]
pub enum PortRefusal {
    /// It has no room for this SMC.
    Spent,
    /// Want of memory.
    Memory,
}

impl fmt::Display for PortRefusal {
    fn fmt<W: fmt::Write>(&self, f: &mut fmt::Formatter<W>) -> fmt::Result {
        f.write_str(match self {
            PortRefusal::Spent => "no room for another SMC",
            PortRefusal::Memory => "out of memory",
        })
    }
}

impl Error for PortRefusal {}

/// What a client calls a core through.
pub trait SmcPort {
    /// The RAM that both sides see: 4 MiB, the first byte at 40000000 (hexadecimal).
    ghost ram: { Self → List ℕ };

    /// The SMCs made, the first one first.
    ghost made: { Self → List Smc };

    /// Whether there is room for an SMC with these registers.
    ghost has_room: { Self → Regs → Bool };

    /// Makes an SMC with these registers, and answers with the registers after it.
    fn smc(&mut self, regs: Regs) -> Result<Regs, PortRefusal>
        ensures made { IfOk result (λ answer.
            Makes (ram self.old) (made self.old) regs answer (ram self.new) (made self.new)) }
        // An SMC is made only where there is room, and told to have none only where there isn't: for want of memory a port can
        // say neither.
        ensures room { OnOk result (has_room self.old regs ≡ true) }
        ensures spent { IsErrOf result PortRefusal.Spent → has_room self.old regs ≡ false }
        // Both refusals change nothing.
        ensures ram_stays { OnErr result (ram self.new ≡ ram self.old) }
        ensures made_stays { OnErr result (made self.new ≡ made self.old) }
        ensures room_stays { OnErr result ((next : Regs) → has_room self.new next ≡ has_room self.old next) }
        ensures whole { length (ram self.new) ≡ 0x400000 };
}
