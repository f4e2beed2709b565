//! The system calls that ask the world outside, and what their answers leave.
ghost use Rattle.std.specs.Prelude.{◌≡◌, ◌+◌, ◌^◌, ◌<◌, ◌≤◌, IsSome, IfSome};
ghost use Rattle.ta_step.specs.Machine.{state_of};
ghost use Rattle.ta_step.specs.Outcome.{Asks, Leads};
ghost use Rattle.ta_step.specs.Requests.{object_span};
ghost use Rattle.ta_step.specs.SystemCalls.{answered, gives, object, object_close, object_create, object_delete, object_open, object_read, object_seek, object_write, time, wait};

use crate::machine::Machine;
use crate::memory::TaMemory;
use crate::panic_code::BAD_ADDRESS;
use crate::stop::{Request, Stop};
use ta_params::ObjectCall;
use ta_params::codes::TEE_ERROR_CANCEL;

impl Request {
    /// How many of the first registers its answer gives.
    fn gives(self) -> usize
        ensures value { result ≡ gives self }
        ensures most { result ≤ 3 }
    {
        match self {
            Request::Time => 3,
            Request::Suspend(_) => 1,
            Request::Object(call) => match call {
                ObjectCall::Create { .. } | ObjectCall::Opened { .. } | ObjectCall::Read { .. } =>
                    2,
                ObjectCall::Write { .. }
                | ObjectCall::Seek { .. }
                | ObjectCall::Close { .. }
                | ObjectCall::Delete { .. } => 1,
            },
        }
    }
}

/// Where the bytes stand that a call on an object names, and how many they are: a seek, a close and a delete name
/// none.
pub fn object_span(call: ObjectCall) -> (u32, u32)
    ensures { (result.0, result.1) ≡ object_span call }
{
    match call {
        ObjectCall::Create { id, len } | ObjectCall::Opened { id, len } => (id, len),
        ObjectCall::Read { addr, len, .. } | ObjectCall::Write { addr, len, .. } => (addr, len),
        ObjectCall::Seek { .. } | ObjectCall::Close { .. } | ObjectCall::Delete { .. } => (0, 0),
    }
}

impl<M: TaMemory> Machine<M> {
    /// Asks, to go on with the next instruction once there is an answer.
    fn ask(&mut self, request: Request) -> Result<(), Stop>
        requires { (state_of M.bytes self.old).place + 1 < 2 ^ 32 }
        ensures { let old = state_of M.bytes self.old in Leads old (Asks request) result (state_of M.bytes self.new) }
    {
        self.place += 1;
        self.asked = Some(request);
        Err(Stop::Asks(request))
    }

    /// Asks for a call on an object, where the bytes that it names are all in one range.
    fn ask_object(&mut self, call: ObjectCall) -> Result<(), Stop>
        requires { (state_of M.bytes self.old).place + 1 < 2 ^ 32 }
        ensures { let old = state_of M.bytes self.old in Leads old (object call old) result (state_of M.bytes self.new) }
    {
        let (addr, len) = object_span(call);
        if !self.is_range(addr, len) {
            return Err(Stop::Panicked(BAD_ADDRESS));
        }
        self.ask(Request::Object(call))
    }

    /// Asks for the time.
    pub(crate) fn time(&mut self) -> Result<(), Stop>
        requires { (state_of M.bytes self.old).place + 1 < 2 ^ 32 }
        ensures { let old = state_of M.bytes self.old in Leads old (time old) result (state_of M.bytes self.new) }
    {
        self.ask(Request::Time)
    }

    /// Asks to be suspended, unless the application is told that its call was cancelled.
    pub(crate) fn wait(&mut self) -> Result<(), Stop>
        requires { (state_of M.bytes self.old).place + 1 < 2 ^ 32 }
        ensures { let old = state_of M.bytes self.old in Leads old (wait old) result (state_of M.bytes self.new) }
    {
        if self.cancelled() {
            return self.put(0, TEE_ERROR_CANCEL);
        }
        self.ask(Request::Suspend(self.registers[0]))
    }

    /// Asks for an object with an id to be created.
    pub(crate) fn object_create(&mut self) -> Result<(), Stop>
        requires { (state_of M.bytes self.old).place + 1 < 2 ^ 32 }
        ensures { let old = state_of M.bytes self.old in Leads old (object_create old) result (state_of M.bytes self.new) }
    {
        let (id, len) = (self.registers[0], self.registers[1]);
        self.ask_object(ObjectCall::Create { id, len })
    }

    /// Asks for the object with an id to be opened.
    pub(crate) fn object_open(&mut self) -> Result<(), Stop>
        requires { (state_of M.bytes self.old).place + 1 < 2 ^ 32 }
        ensures { let old = state_of M.bytes self.old in Leads old (object_open old) result (state_of M.bytes self.new) }
    {
        let (id, len) = (self.registers[0], self.registers[1]);
        self.ask_object(ObjectCall::Opened { id, len })
    }

    /// Asks for bytes of an object.
    pub(crate) fn object_read(&mut self) -> Result<(), Stop>
        requires { (state_of M.bytes self.old).place + 1 < 2 ^ 32 }
        ensures { let old = state_of M.bytes self.old in Leads old (object_read old) result (state_of M.bytes self.new) }
    {
        let (handle, addr, len) = (self.registers[0], self.registers[1], self.registers[2]);
        self.ask_object(ObjectCall::Read { handle, addr, len })
    }

    /// Asks for bytes to be written to an object.
    pub(crate) fn object_write(&mut self) -> Result<(), Stop>
        requires { (state_of M.bytes self.old).place + 1 < 2 ^ 32 }
        ensures { let old = state_of M.bytes self.old in Leads old (object_write old) result (state_of M.bytes self.new) }
    {
        let (handle, addr, len) = (self.registers[0], self.registers[1], self.registers[2]);
        self.ask_object(ObjectCall::Write { handle, addr, len })
    }

    /// Asks for another position in an object.
    pub(crate) fn object_seek(&mut self) -> Result<(), Stop>
        requires { (state_of M.bytes self.old).place + 1 < 2 ^ 32 }
        ensures { let old = state_of M.bytes self.old in Leads old (object_seek old) result (state_of M.bytes self.new) }
    {
        let (handle, position) = (self.registers[0], self.registers[1]);
        self.ask_object(ObjectCall::Seek { handle, position })
    }

    /// Asks for an object to be closed.
    pub(crate) fn object_close(&mut self) -> Result<(), Stop>
        requires { (state_of M.bytes self.old).place + 1 < 2 ^ 32 }
        ensures { let old = state_of M.bytes self.old in Leads old (object_close old) result (state_of M.bytes self.new) }
    {
        let handle = self.registers[0];
        self.ask_object(ObjectCall::Close { handle })
    }

    /// Asks for an object to be closed and removed.
    pub(crate) fn object_delete(&mut self) -> Result<(), Stop>
        requires { (state_of M.bytes self.old).place + 1 < 2 ^ 32 }
        ensures { let old = state_of M.bytes self.old in Leads old (object_delete old) result (state_of M.bytes self.new) }
    {
        let handle = self.registers[0];
        self.ask_object(ObjectCall::Delete { handle })
    }

    /// Answers the request that the machine waits with: of these numbers as many as the request gives are put
    /// into the first registers, and the others keep what they have. It asks for nothing any more, and runs on
    /// behind the system call. Takes no memory.
    pub fn answer(&mut self, r0: u32, r1: u32, r2: u32)
        requires { IsSome (state_of M.bytes self.old).asked }
        ensures { let old = state_of M.bytes self.old in
            IfSome old.asked (λ request. state_of M.bytes self.new ≡ answered request r0 r1 r2 old) }
    {
        let Some(request) = self.asked else {
            unreachable!();
        };
        let gives = request.gives();
        self.registers[..gives].copy_from_slice(&[r0, r1, r2][..gives]);
        self.asked = None;
    }
}
