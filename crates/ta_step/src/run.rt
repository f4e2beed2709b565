//! Steps of a machine, one after another.
ghost use Rattle.std.specs.Prelude.{◌≡◌, Some, None, IsSomeAnd, slice_get};
ghost use Rattle.ta_isa.specs.Spelling.{IsValid};
ghost use Rattle.ta_step.specs.Machine.{state_of};
ghost use Rattle.ta_step.specs.Outcome.{Leads};
ghost use Rattle.ta_step.specs.Runs.{request_of, runs};
ghost use Rattle.ta_step.specs.Step.{step};

use crate::machine::Machine;
use crate::memory::TaMemory;
use crate::panic_code::PAST_THE_CODE;
use crate::stop::Stop;
use ta_isa::{Image, Instr};

impl<M: TaMemory> Machine<M> {
    /// The instruction at the machine's place.
    fn fetch(&self, image: &Image) -> Option<Instr>
        ensures { result ≡ slice_get image.now.code (state_of M.bytes self.now).place }
    {
        image.code.as_slice().get(self.place as usize).copied()
    }

    /// Does the next instruction, each of which is one step.
    fn step(&mut self, image: &Image) -> Result<(), Stop>
        requires { IsValid image.now }
        ensures { let old = state_of M.bytes self.old in
            IsSomeAnd (step image.now.code old) (λ outcome. Leads old outcome result (state_of M.bytes self.new)) }
    {
        match self.fetch(image) {
            None => Err(Stop::Panicked(PAST_THE_CODE)),
            Some(instr) => self.execute(instr),
        }
    }

    /// Does at most so many steps, up to the first stop. Answers why it stopped, and how many steps it
    /// used, that at which it stopped among them. Where it stopped with a request, it runs again once that
    /// is answered. Takes no memory.
    pub fn run(&mut self, image: &Image, steps: u32) -> (Stop, u32)
        requires valid { IsValid image.now }
        requires unasked { (state_of M.bytes self.old).asked ≡ None }
        ensures runs { runs image.now.code steps (state_of M.bytes self.old)
            ≡ Some (record { stop = result.0; steps = result.1; state = state_of M.bytes self.new }) }
        ensures asked { (state_of M.bytes self.new).asked ≡ request_of result.0 }
    {
        for used in 0..steps {
            if let Err(stop) = self.step(image) {
                return (stop, used + 1);
            }
        }
        (Stop::Interrupted, steps)
    }
}
