use base::Sequence;

/// The value of a register of a call.
#[derive(Clone, Copy, Debug)]
pub enum Reg {
    /// This number.
    Num(u32),
    /// The register of this number, 0 to 7, of the processor's last answer; 0 before any.
    Last(u8),
}

/// What a trace lets happen.
#[derive(Debug, Drop)]
pub enum Item {
    /// A processor enters with these registers, is granted so many steps, 1 to 1,000,000, and exits.
    Smc {
        cpu: u8,
        steps: u32,
        regs: [Reg; 8],
    },
    /// A processor enters, and stays inside.
    Enter {
        cpu: u8,
        steps: u32,
        regs: [Reg; 8],
    },
    /// A processor that is inside exits.
    Leave {
        cpu: u8,
    },
    /// Bytes that a processor writes into its lane of the normal world's memory.
    Write {
        cpu: u8,
        addr: u64,
        bytes: Sequence<u8>,
    },
    /// Prints so many bytes of a processor's lane, 1 to 4096.
    Show {
        cpu: u8,
        addr: u64,
        len: u32,
    },
}
