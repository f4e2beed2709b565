//! Serving a list of entries and exits.
ghost use Rattle.std.specs.Prelude.{◌≡◌, ◌+◌, ◌≤◌, ◌<◌, OnErr, length, vec_capacity, vec_len};
ghost use Rattle.core_machine.specs.Serving.{Extends, Serves, ServesOne};
ghost use Rattle.core_machine.specs.Standing.{CanAllCome, CanCome};

use crate::machine::Machine;
use crate::smc::{Smc, Stopped, Told};
use kernel_state::EnterRefusal;
use std::alloc::Global;

impl Machine {
    /// Serves a list of entries and exits in its order, and adds the answers behind those that are there. It stops at
    /// an entry that is refused. The room of all answers is taken first, so that want of memory loses none of them.
    pub fn serve(
        &mut self,
        alloc: Global,
        smcs: &[Smc],
        answers: &mut Vec<Told>,
    ) -> Result<(), Stopped>
        requires { CanAllCome self.old smcs.now }
        ensures serves { Serves self.old self.new answers.old.items answers.new.items smcs.now result }
        ensures extends { Extends self.old self.new }
    {
        if answers.reserve(smcs.len()).is_err() {
            return Err(Stopped {
                served: 0,
                why: EnterRefusal::Memory,
            });
        }
        self.serve_all(alloc, smcs, answers)
    }

    /// The same, where there is room for the answers.
    fn serve_all(
        &mut self,
        alloc: Global,
        smcs: &[Smc],
        answers: &mut Vec<Told>,
    ) -> Result<(), Stopped>
        requires can { CanAllCome self.old smcs.now }
        requires room { vec_len answers.old + length smcs.now ≤ vec_capacity answers.old }
        ensures serves { Serves self.old self.new answers.old.items answers.new.items smcs.now result }
        ensures extends { Extends self.old self.new }
    {
        for (served, smc) in smcs.iter().enumerate() {
            if let Err(why) = self.serve_one(alloc, *smc, answers) {
                return Err(Stopped { served, why });
            }
        }
        Ok(())
    }

    /// Serves one of a list.
    fn serve_one(
        &mut self,
        alloc: Global,
        smc: Smc,
        answers: &mut Vec<Told>,
    ) -> Result<(), EnterRefusal>
        requires can { CanCome self.old smc }
        requires room { vec_len answers.old < vec_capacity answers.old }
        ensures serves { ServesOne self.old self.new answers.old.items answers.new.items smc result }
        ensures room { vec_capacity answers.new ≡ vec_capacity answers.old }
        ensures len { vec_len answers.new ≤ vec_len answers.old + 1 }
    {
        match smc {
            Smc::Comes(visitor) => self.enter(alloc, visitor),
            Smc::Leaves(cpu) => {
                let regs = self.leave(cpu).regs;
                answers.push_reserved(Told { cpu, regs });
                Ok(())
            }
        }
    }
}
