//! The bytes of a machine that a call on an object names.
ghost use Rattle.std.specs.Prelude.{◌≡◌, ℕ, length, true};
ghost use Rattle.job_model.specs.Asking.{bytes_at};
ghost use Rattle.rpc_cont.specs.Spans.{rest_of};
ghost use Rattle.ta_step.specs.Addresses.{store};
ghost use Rattle.ta_step.specs.Machine.{state_of};
ghost use Rattle.ta_step.specs.Requests.{object_span};
ghost use Rattle.ta_step.specs.State.{State};
ghost use Rattle.ta_step.specs.SystemCalls.{is_range};
ghost use Rattle.tee_storage.specs.ObjectCalls.{range_len};

use ta_step::{Machine, ObjectCall, TaMemory, object_span};
use tee_storage::Span;

/// So many bytes of a machine from an address on, all of them in one range.
#[derive(Drop)]
pub(crate) struct MachineSpan<M: TaMemory> {
    machine: Machine<M>,
    addr: u32,
    len: u32,
    ghost inside: { is_range (state_of M.bytes machine) addr len ≡ true },
}

impl<M: TaMemory> MachineSpan<M> {
    /// The bytes that the call names, of this machine.
    pub(crate) fn of(call: ObjectCall, machine: Machine<M>) -> MachineSpan<M>
        requires { let span = object_span call in is_range (state_of M.bytes machine) span.0 span.1 ≡ true }
        ensures bytes { let span = object_span call in
            ⟦<MachineSpan<M> as Span>⟧.bytes result ≡ bytes_at (state_of M.bytes machine) span.0 span.1 }
        ensures len { length (⟦<MachineSpan<M> as Span>⟧.bytes result) ≡ range_len call }
        ensures rest { let span = object_span call in
            ⟦<MachineSpan<M> as Span>⟧.rest result ≡ rest_of (state_of M.bytes machine) span.0 span.1 }
    {
        let (addr, len) = object_span(call);
        MachineSpan { machine, addr, len }
    }

    /// The machine, with what was written.
    pub(crate) fn into_machine(self) -> Machine<M>
        ensures { (old : State) (addr len : ℕ) → is_range old addr len ≡ true
            → ⟦<MachineSpan<M> as Span>⟧.rest self ≡ rest_of old addr len
            → state_of M.bytes result ≡ store old addr (⟦<MachineSpan<M> as Span>⟧.bytes self) }
    {
        self.machine
    }
}

impl<M: TaMemory> Span for MachineSpan<M> {
    ghost bytes = { λ span. bytes_at (state_of M.bytes span.machine) span.addr span.len };

    ghost Rest = { ℕ × ℕ × State };

    ghost rest = { λ span. rest_of (state_of M.bytes span.machine) span.addr span.len };

    fn get(&self, at: u32) -> u8 {
        self.machine.load(self.addr + at).unwrap_or(0)
    }

    fn set(&mut self, at: u32, byte: u8) {
        self.machine.store(self.addr + at, byte);
    }

    fn read(&self, at: u32, out: &mut [u8]) {
        if !out.is_empty() {
            self.machine.read(self.addr + at, out);
        }
    }

    fn part(&self, at: u32) -> &[u8] {
        let part = self.machine.part(self.addr + at);
        let len = part.len().min((self.len - at) as usize);
        &part[..len]
    }

    fn write(&mut self, at: u32, part: &[u8]) {
        if !part.is_empty() {
            self.machine.write(self.addr + at, part);
        }
    }
}
