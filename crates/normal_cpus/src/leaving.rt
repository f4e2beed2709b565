//! A processor goes out, under one turn.
ghost use Rattle.std.specs.Prelude.{◌≡◌, false};
ghost use Rattle.core_lock.specs.Passes.{number};
ghost use Rattle.normal_cpus.specs.Leaving.{CanGoOut, GoesOut};
ghost use Rattle.normal_cpus.specs.Sharing.{IsCpuOf, boot_of, is_inside};

use crate::cpu_answer::CpuAnswer;
use crate::shared_core::{CpuPass, SharedCore};
use kernel_exit::leave;
use kernel_state::{Ran, journals_stay_legal};
use ns_ram::Lane;
use std::sync::Wait;

impl SharedCore {
    /// The pass's processor goes out, under one turn, with the work of its open entry, whose granted steps are done. What the answer
    /// has to say is written to the lane.
    ///
    /// It may wait for the turn, which is over when it returns. It takes no memory.
    pub fn leave(&self, rt: &impl Wait, pass: &mut CpuPass, lane: &mut Lane, ran: Ran) -> CpuAnswer
        requires own { IsCpuOf self.now pass.old }
        requires can { CanGoOut (boot_of self.now) pass.old ran }
        ensures own { IsCpuOf self.now pass.new }
        ensures same { number pass.new ≡ number pass.old }
        ensures goes { GoesOut (boot_of self.now) pass.old pass.new ran lane.old lane.new result }
        ensures outside { is_inside pass.new ≡ false }
    {
        journals_stay_legal();
        let entry_at = ran.entry_at;
        let mut turn = self.lock.take_turn(rt, pass);
        let exit_at = turn.value().event_count();
        let regs = leave(turn.value_mut(), ran, lane);
        self.lock.give_back(pass, turn);
        CpuAnswer {
            regs,
            entry_at,
            exit_at,
        }
    }
}
