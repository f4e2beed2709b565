//! The machine of one entry point: where it starts, what becomes of it, and its cancellation flag.
ghost use Rattle.std.specs.Prelude.{◌≡◌, ◌<◌, ◌&&◌, not, true};
ghost use Rattle.ta_step.specs.State.{is_cancelled, started};
ghost use Rattle.ta_step.specs.Machine.{state_of};

use crate::memory::TaMemory;
use crate::stop::Request;
use arrayvec::ArrayVec;
use ta_isa::Image;
use ta_params::{CopiedParams, Login};

/// The registers of a machine, each of 32 bits.
const REGISTERS: usize = ta_isa::REGISTERS as usize;

/// The calls that a machine's stack holds at most.
pub const STACK_DEPTH: usize = 64;

/// A trusted application on its way through one of its entry points.
///
/// Contracts see it as the record `State`: registers, place, call stack, memory as one list of bytes, the
/// copied parameters, the client's login, the mask, the cancellation flag, and the request that waits for
/// its answer.
#[derive(Drop)]
pub struct Machine<M> {
    pub(crate) registers: [u32; REGISTERS],
    /// The number of the instruction to run next.
    pub(crate) place: u32,
    /// Where each open call goes on, the last one last.
    pub(crate) stack: ArrayVec<u32, STACK_DEPTH>,
    pub(crate) memory: M,
    pub(crate) params: CopiedParams,
    pub(crate) login: Login,
    pub(crate) masked: bool,
    pub(crate) cancelled: bool,
    /// The request that waits for its answer.
    pub(crate) asked: Option<Request>,
}

impl<M: TaMemory> Machine<M> {
    /// A machine at the image's entry point of this number, 0 to 4, with its first three registers. It
    /// starts masked, with the flag clear, and has asked for nothing. Takes no memory.
    pub fn start(
        image: &Image,
        memory: M,
        params: CopiedParams,
        login: Login,
        point: u8,
        first: [u32; 3],
    ) -> Machine<M>
        requires { point < 5 }
        ensures { state_of M.bytes result ≡ started image.now.entries point first (M.bytes memory) params login }
    {
        let [r0, r1, r2] = first;
        let mut registers = [0; REGISTERS];
        registers[0] = r0;
        registers[1] = r1;
        registers[2] = r2;
        Machine {
            registers,
            place: image.entries[point as usize],
            stack: ArrayVec::new(),
            memory,
            params,
            login,
            masked: true,
            cancelled: false,
            asked: None,
        }
    }

    /// Whether the application is told that its call was cancelled: the flag is set, and not masked.
    pub fn cancelled(&self) -> bool
        ensures { result ≡ is_cancelled (state_of M.bytes self.now) }
    {
        self.cancelled && !self.masked
    }

    /// Whether the application has masked its cancellation, as it has at its start.
    pub fn is_masked(&self) -> bool
        ensures { result ≡ (state_of M.bytes self.now).masked }
    {
        self.masked
    }

    /// The request that waits for its answer, if there is one.
    pub fn asked(&self) -> Option<Request>
        ensures { result ≡ (state_of M.bytes self.now).asked }
    {
        self.asked
    }

    /// Sets the cancellation flag.
    pub fn see_cancel(&mut self)
        ensures { state_of M.bytes self.new ≡ record (state_of M.bytes self.old) { cancelled = true } }
    {
        self.cancelled = true;
    }

    /// Gives the memory and the parameters back, as the application left them.
    pub fn finish(self) -> (M, CopiedParams)
        ensures memory { M.bytes result.0 ≡ (state_of M.bytes self).memory }
        ensures params { result.1 ≡ (state_of M.bytes self).params }
    {
        let Machine {
            memory,
            params,
            registers: _,
            place: _,
            stack: _,
            login: _,
            masked: _,
            cancelled: _,
            asked: _,
        } = self;
        (memory, params)
    }
}
