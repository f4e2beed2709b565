//! A processor comes in, under one turn.
ghost use Rattle.std.specs.Prelude.{◌≡◌, ◌≤◌, false, true, MatchResult};
ghost use Rattle.core_lock.specs.Passes.{number};
ghost use Rattle.normal_cpus.specs.Entering.{ComesIn, coming};
ghost use Rattle.normal_cpus.specs.Sharing.{IsCpuOf, boot_of, is_inside};

use crate::shared_core::{CpuPass, SharedCore};
use kernel_entry::{Visitor, enter};
use kernel_state::{EnterRefusal, Work, journals_stay_legal};
use ns_ram::Lane;
use smc_abi::Regs;
use std::alloc::Global;
use std::sync::Wait;

impl SharedCore {
    /// The pass's processor comes in with these registers, under one turn, and is granted so many steps, 1 to 1,000,000, of which
    /// its work has done none. At `Err` the core is as it was at that turn, and the pass has at most seen more.
    ///
    /// It may wait for the turn, which is over when it returns.
    pub fn enter(
        &self,
        rt: &impl Wait,
        alloc: Global,
        pass: &mut CpuPass,
        lane: &Lane,
        regs: &Regs,
        steps: u32,
    ) -> Result<Work, EnterRefusal>
        requires own { IsCpuOf self.now pass.old }
        requires outside { is_inside pass.old ≡ false }
        requires steps { (1 ≤ steps) × (steps ≤ 1000000) }
        ensures own { IsCpuOf self.now pass.new }
        ensures same { number pass.new ≡ number pass.old }
        ensures comes { ComesIn (boot_of self.now) pass.old pass.new (coming (number pass.old) regs.now steps) lane.now result }
        ensures inside { MatchResult result (λ _. is_inside pass.new ≡ true) (λ _. is_inside pass.new ≡ false) }
    {
        journals_stay_legal();
        let cpu = pass.number() as u8;
        let visitor = Visitor {
            cpu,
            regs: *regs,
            steps,
        };
        let mut turn = self.lock.take_turn(rt, pass);
        let entered = enter(alloc, turn.value_mut(), visitor, lane);
        self.lock.give_back(pass, turn);
        entered
    }
}
