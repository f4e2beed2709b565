//! The table of instructions: which fields each operation uses, and for what.
ghost use Rattle.std.specs.Prelude.{◌≡◌};
ghost use Rattle.ta_isa.specs.InstructionTable.{follows_row, is_immediate, is_operand, row_of};

use crate::image::Instr;

/// The registers, numbered from 0.
pub const REGISTERS: u8 = 16;

/// The last system call that an instruction may name.
pub const LAST_SYSTEM_CALL: u32 = 19;

/// What one of the fields `d`, `a` and `b` holds.
#[derive(Clone, Copy)]
pub enum Operand {
    /// Nothing: the field is 0.
    Unused,
    /// The number of a register.
    Register,
}

/// What the field `imm` holds.
#[derive(Clone, Copy)]
pub enum Immediate {
    /// Nothing: the field is 0.
    Unused,
    /// Any number.
    Number,
    /// The number of an instruction of the image.
    Target,
    /// The number of a system call.
    SystemCall,
}

/// What the fields of an operation hold.
#[derive(Clone, Copy)]
pub struct Row {
    pub d: Operand,
    pub a: Operand,
    pub b: Operand,
    pub imm: Immediate,
}

impl Operand {
    /// Whether a field may hold this.
    fn takes(self, field: u8) -> bool
        ensures { result ≡ is_operand self field }
    {
        match self {
            Operand::Unused => field == 0,
            Operand::Register => field < REGISTERS,
        }
    }
}

impl Immediate {
    /// Whether the field may hold this in an image of so many instructions.
    fn takes(self, field: u32, count: u32) -> bool
        ensures { result ≡ is_immediate self field count }
    {
        match self {
            Immediate::Unused => field == 0,
            Immediate::Number => true,
            Immediate::Target => field < count,
            Immediate::SystemCall => field <= LAST_SYSTEM_CALL,
        }
    }
}

impl Row {
    const fn of(d: Operand, a: Operand, b: Operand, imm: Immediate) -> Row
        ensures { result ≡ record { d = d; a = a; b = b; imm = imm } }
    {
        Row { d, a, b, imm }
    }

    /// Whether each field of an instruction holds what the row says, in an image of so many.
    pub(crate) fn holds(self, instr: Instr, count: u32) -> bool
        ensures { result ≡ follows_row count instr self }
    {
        self.d.takes(instr.d)
            && self.a.takes(instr.a)
            && self.b.takes(instr.b)
            && self.imm.takes(instr.imm, count)
    }
}

/// The row of an operation, if there is one of this number.
pub fn row_of(op: u8) -> Option<Row>
    ensures { result ≡ row_of op }
{
    use Immediate::{Number, SystemCall, Target};
    use Operand::{Register, Unused};
    let row = match op {
        // const
        0x01 => Row::of(Register, Unused, Unused, Number),
        // move
        0x02 => Row::of(Register, Register, Unused, Immediate::Unused),
        // add, sub, mul, div, rem, and, or, xor, shl, shr
        0x03..=0x0c => Row::of(Register, Register, Register, Immediate::Unused),
        // loadb, loadw
        0x0d | 0x0e => Row::of(Register, Register, Unused, Number),
        // storeb, storew
        0x0f | 0x10 => Row::of(Unused, Register, Register, Number),
        // beq, bne, bltu, bgeu
        0x11..=0x14 => Row::of(Unused, Register, Register, Target),
        // jump, call
        0x15 | 0x16 => Row::of(Unused, Unused, Unused, Target),
        // ret
        0x17 => Row::of(Unused, Unused, Unused, Immediate::Unused),
        // sys
        0x18 => Row::of(Unused, Unused, Unused, SystemCall),
        _ => return None,
    };
    Some(row)
}
