//! What each instruction does.
ghost use Rattle.std.specs.Prelude.{◌≡◌, ◌+◌, ◌/◌, ◌%◌, ◌^◌, ◌<◌, [], ◌∷◌, IsSome, IfSome};
ghost use Rattle.ta_isa.specs.InstructionTable.{HasFields};
ghost use Rattle.ta_step.specs.Addresses.{load};
ghost use Rattle.ta_step.specs.Machine.{state_of};
ghost use Rattle.ta_step.specs.Operations.{branched, called, divided_by, effect_of, loaded, returned, stored};
ghost use Rattle.ta_step.specs.Outcome.{Leads, goes_on, goes_to};
ghost use Rattle.ta_step.specs.State.{put, reg};

use crate::machine::Machine;
use crate::memory::TaMemory;
use crate::panic_code::{BAD_ADDRESS, BAD_STACK, DIVISION_BY_ZERO};
use crate::stop::Stop;
use ta_isa::Instr;

impl<M: TaMemory> Machine<M> {
    pub(crate) fn register(&self, number: u8) -> u32
        requires { number < 16 }
        ensures { result ≡ reg (state_of M.bytes self.now) number }
    {
        self.registers[number as usize]
    }

    /// Puts a number into a register and goes on to the next instruction.
    pub(crate) fn put(&mut self, number: u8, value: u32) -> Result<(), Stop>
        requires register { number < 16 }
        requires place { (state_of M.bytes self.old).place + 1 < 2 ^ 32 }
        ensures { let old = state_of M.bytes self.old in
            Leads old (goes_on (put old number value)) result (state_of M.bytes self.new) }
    {
        self.registers[number as usize] = value;
        self.place += 1;
        Ok(())
    }

    /// Puts the quotient of two numbers into a register.
    fn divide(&mut self, number: u8, dividend: u32, divisor: u32) -> Result<(), Stop>
        requires register { number < 16 }
        requires place { (state_of M.bytes self.old).place + 1 < 2 ^ 32 }
        ensures { let old = state_of M.bytes self.old in
            Leads old (divided_by old divisor number (dividend / divisor)) result (state_of M.bytes self.new) }
    {
        if divisor == 0 {
            return Err(Stop::Panicked(DIVISION_BY_ZERO));
        }
        self.put(number, dividend / divisor)
    }

    /// Puts the remainder of two numbers into a register.
    fn remain(&mut self, number: u8, dividend: u32, divisor: u32) -> Result<(), Stop>
        requires register { number < 16 }
        requires place { (state_of M.bytes self.old).place + 1 < 2 ^ 32 }
        ensures { let old = state_of M.bytes self.old in
            Leads old (divided_by old divisor number (dividend % divisor)) result (state_of M.bytes self.new) }
    {
        if divisor == 0 {
            return Err(Stop::Panicked(DIVISION_BY_ZERO));
        }
        self.put(number, dividend % divisor)
    }

    /// Puts what was found at an address, if anything was, into a register.
    fn put_loaded(&mut self, number: u8, found: Option<u32>) -> Result<(), Stop>
        requires register { number < 16 }
        requires place { (state_of M.bytes self.old).place + 1 < 2 ^ 32 }
        ensures { let old = state_of M.bytes self.old in
            Leads old (loaded old number found) result (state_of M.bytes self.new) }
    {
        match found {
            None => Err(Stop::Panicked(BAD_ADDRESS)),
            Some(value) => self.put(number, value),
        }
    }

    /// The byte at an address, widened with zeros.
    fn widened_byte(&self, addr: u32) -> Option<u32>
        ensures { result ≡ load (state_of M.bytes self.now) addr }
    {
        let byte = self.load(addr)?;
        Some(u32::from(byte))
    }

    /// Writes a byte to an address.
    fn put_byte(&mut self, addr: u32, value: u8) -> Result<(), Stop>
        requires { (state_of M.bytes self.old).place + 1 < 2 ^ 32 }
        ensures { let old = state_of M.bytes self.old in
            Leads old (stored old addr (value ∷ [])) result (state_of M.bytes self.new) }
    {
        let stored = self.store(addr, value);
        self.go_on_if(stored, BAD_ADDRESS)
    }

    /// Writes a word to an address, its lowest byte first.
    fn put_word(&mut self, addr: u32, word: [u8; 4]) -> Result<(), Stop>
        requires { (state_of M.bytes self.old).place + 1 < 2 ^ 32 }
        ensures { let old = state_of M.bytes self.old in
            Leads old (stored old addr word) result (state_of M.bytes self.new) }
    {
        let stored = self.store_word(addr, word);
        self.go_on_if(stored, BAD_ADDRESS)
    }

    /// Goes to a target, or on to the next instruction.
    fn branch(&mut self, taken: bool, target: u32) -> Result<(), Stop>
        requires place { (state_of M.bytes self.old).place + 1 < 2 ^ 32 }
        ensures { let old = state_of M.bytes self.old in
            Leads old (branched old taken target) result (state_of M.bytes self.new) }
    {
        self.place = if taken { target } else { self.place + 1 };
        Ok(())
    }

    fn jump(&mut self, target: u32) -> Result<(), Stop>
        ensures { let old = state_of M.bytes self.old in
            Leads old (goes_to old target) result (state_of M.bytes self.new) }
    {
        self.place = target;
        Ok(())
    }

    fn call(&mut self, target: u32) -> Result<(), Stop>
        requires place { (state_of M.bytes self.old).place + 1 < 2 ^ 32 }
        ensures { let old = state_of M.bytes self.old in
            Leads old (called old target) result (state_of M.bytes self.new) }
    {
        if self.stack.is_full() {
            return Err(Stop::Panicked(BAD_STACK));
        }
        self.stack.push(self.place + 1);
        self.place = target;
        Ok(())
    }

    fn ret(&mut self) -> Result<(), Stop>
        ensures { let old = state_of M.bytes self.old in
            Leads old (returned old) result (state_of M.bytes self.new) }
    {
        match self.stack.pop() {
            None => Err(Stop::Panicked(BAD_STACK)),
            Some(place) => {
                self.place = place;
                Ok(())
            }
        }
    }

    /// Does what an instruction says.
    pub(crate) fn execute(&mut self, instr: Instr) -> Result<(), Stop>
        requires fields { HasFields instr }
        requires known { IsSome (effect_of instr) }
        requires place { (state_of M.bytes self.old).place + 1 < 2 ^ 32 }
        ensures { let old = state_of M.bytes self.old in
            IfSome (effect_of instr) (λ effect. Leads old (effect old) result (state_of M.bytes self.new)) }
    {
        let a = self.register(instr.a);
        let b = self.register(instr.b);
        let addr = a.wrapping_add(instr.imm);
        match instr.op {
            0x01 => self.put(instr.d, instr.imm),
            0x02 => self.put(instr.d, a),
            0x03 => self.put(instr.d, a.wrapping_add(b)),
            0x04 => self.put(instr.d, a.wrapping_sub(b)),
            0x05 => self.put(instr.d, a.wrapping_mul(b)),
            0x06 => self.divide(instr.d, a, b),
            0x07 => self.remain(instr.d, a, b),
            0x08 => self.put(instr.d, a & b),
            0x09 => self.put(instr.d, a | b),
            0x0a => self.put(instr.d, a ^ b),
            0x0b => self.put(instr.d, a.wrapping_shl(b)),
            0x0c => self.put(instr.d, a.wrapping_shr(b)),
            0x0d => self.put_loaded(instr.d, self.widened_byte(addr)),
            0x0e => self.put_loaded(instr.d, self.word_at(addr)),
            0x0f => self.put_byte(addr, (b % 256) as u8),
            0x10 => self.put_word(addr, b.to_le_bytes()),
            0x11 => self.branch(a == b, instr.imm),
            0x12 => self.branch(a != b, instr.imm),
            0x13 => self.branch(a < b, instr.imm),
            0x14 => self.branch(a >= b, instr.imm),
            0x15 => self.jump(instr.imm),
            0x16 => self.call(instr.imm),
            0x17 => self.ret(),
            0x18 => self.system_call(instr.imm),
            _ => unreachable!(),
        }
    }
}
