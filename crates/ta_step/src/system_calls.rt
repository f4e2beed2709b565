//! What each system call does. Its arguments are in the first registers, and so are its results.
ghost use Rattle.std.specs.Prelude.{◌+◌, ◌^◌, ◌<◌, IsSome, IfSome, if◌then◌else◌};
ghost use Rattle.ta_step.specs.Machine.{state_of};
ghost use Rattle.ta_step.specs.Outcome.{Leads, Panics, goes_on};
ghost use Rattle.ta_step.specs.SystemCalls.{cancelled, login, masks, panics, returns, set_size, set_value, size, system_call_of, types, value};

use crate::machine::Machine;
use crate::memory::TaMemory;
use crate::panic_code::{BAD_ADDRESS, BAD_CALL};
use crate::parameters;
use crate::stop::Stop;
use ta_params::GpParam;

impl<M: TaMemory> Machine<M> {
    /// Ends the entry point.
    fn return_(&self) -> Result<(), Stop>
        ensures { let now = state_of M.bytes self.now in Leads now (returns now) result now }
    {
        Err(Stop::Ended {
            result: self.registers[0],
            context: self.registers[1],
        })
    }

    fn panic(&self) -> Result<(), Stop>
        ensures { let now = state_of M.bytes self.now in Leads now (panics now) result now }
    {
        Err(Stop::Panicked(self.registers[0]))
    }

    /// Gives the types of the parameters.
    fn types(&mut self) -> Result<(), Stop>
        requires { (state_of M.bytes self.old).place + 1 < 2 ^ 32 }
        ensures { let old = state_of M.bytes self.old in Leads old (types old) result (state_of M.bytes self.new) }
    {
        let types = self.params.type_word();
        self.put(0, types)
    }

    /// Gives the two numbers of a value.
    fn value(&mut self) -> Result<(), Stop>
        requires { (state_of M.bytes self.old).place + 1 < 2 ^ 32 }
        ensures { let old = state_of M.bytes self.old in Leads old (value old) result (state_of M.bytes self.new) }
    {
        match parameters::param_at(&self.params, self.registers[0]) {
            Some(GpParam::Value { a, b, .. }) => {
                let (a, b) = (*a, *b);
                self.registers[0] = a;
                self.put(1, b)
            }
            _ => Err(Stop::Panicked(BAD_CALL)),
        }
    }

    /// Changes the two numbers of a value that goes out.
    fn set_value(&mut self) -> Result<(), Stop>
        requires { (state_of M.bytes self.old).place + 1 < 2 ^ 32 }
        ensures { let old = state_of M.bytes self.old in Leads old (set_value old) result (state_of M.bytes self.new) }
    {
        let (a, b) = (self.registers[1], self.registers[2]);
        let done = parameters::set_value(&mut self.params, self.registers[0], a, b);
        self.go_on_if(done, BAD_CALL)
    }

    /// Gives the size of a memory parameter.
    fn size(&mut self) -> Result<(), Stop>
        requires { (state_of M.bytes self.old).place + 1 < 2 ^ 32 }
        ensures { let old = state_of M.bytes self.old in Leads old (size old) result (state_of M.bytes self.new) }
    {
        match parameters::param_at(&self.params, self.registers[0]) {
            Some(GpParam::Memref { size, .. }) => {
                let size = *size;
                self.put(0, size)
            }
            _ => Err(Stop::Panicked(BAD_CALL)),
        }
    }

    /// Changes the size of a memory parameter that goes out, to any number.
    fn set_size(&mut self) -> Result<(), Stop>
        requires { (state_of M.bytes self.old).place + 1 < 2 ^ 32 }
        ensures { let old = state_of M.bytes self.old in Leads old (set_size old) result (state_of M.bytes self.new) }
    {
        let size = self.registers[1];
        let done = parameters::set_size(&mut self.params, self.registers[0], size);
        self.go_on_if(done, BAD_CALL)
    }

    /// Goes on where there is what was asked for, and else panics with a code.
    pub(crate) fn go_on_if(&mut self, found: bool, code: u32) -> Result<(), Stop>
        requires { (state_of M.bytes self.old).place + 1 < 2 ^ 32 }
        ensures { let old = state_of M.bytes self.old in
            Leads old (if found then goes_on old else Panics code) result (state_of M.bytes self.new) }
    {
        if !found {
            return Err(Stop::Panicked(code));
        }
        self.place += 1;
        Ok(())
    }

    /// Writes the client's UUID to an address, and gives how it logged in.
    #[tactic(auto, using(crate::proofs::Stores::not_stored))]
    fn login(&mut self) -> Result<(), Stop>
        requires { (state_of M.bytes self.old).place + 1 < 2 ^ 32 }
        ensures { let old = state_of M.bytes self.old in Leads old (login old) result (state_of M.bytes self.new) }
    {
        let client = self.login.client;
        if !self.write(self.registers[0], &client) {
            return Err(Stop::Panicked(BAD_ADDRESS));
        }
        self.put(0, self.login.kind)
    }

    /// Tells whether the call was cancelled, where the application is to know.
    fn tell_cancelled(&mut self) -> Result<(), Stop>
        requires { (state_of M.bytes self.old).place + 1 < 2 ^ 32 }
        ensures { let old = state_of M.bytes self.old in Leads old (cancelled old) result (state_of M.bytes self.new) }
    {
        self.put(0, u32::from(self.cancelled()))
    }

    /// Masks or unmasks the cancellation, and gives the old mask.
    fn mask(&mut self, masked: bool) -> Result<(), Stop>
        requires { (state_of M.bytes self.old).place + 1 < 2 ^ 32 }
        ensures { let old = state_of M.bytes self.old in Leads old (masks masked old) result (state_of M.bytes self.new) }
    {
        let was_masked = self.masked;
        self.masked = masked;
        self.put(0, u32::from(was_masked))
    }

    /// Does the system call of a number.
    pub(crate) fn system_call(&mut self, number: u32) -> Result<(), Stop>
        requires known { IsSome (system_call_of number) }
        requires place { (state_of M.bytes self.old).place + 1 < 2 ^ 32 }
        ensures { let old = state_of M.bytes self.old in
            IfSome (system_call_of number) (λ effect. Leads old (effect old) result (state_of M.bytes self.new)) }
    {
        match number {
            0 => self.return_(),
            1 => self.panic(),
            2 => self.types(),
            3 => self.value(),
            4 => self.set_value(),
            5 => self.size(),
            6 => self.set_size(),
            7 => self.login(),
            8 => self.tell_cancelled(),
            9 => self.mask(true),
            10 => self.mask(false),
            11 => self.time(),
            12 => self.wait(),
            13 => self.object_create(),
            14 => self.object_open(),
            15 => self.object_read(),
            16 => self.object_write(),
            17 => self.object_seek(),
            18 => self.object_close(),
            19 => self.object_delete(),
            _ => unreachable!(),
        }
    }
}
