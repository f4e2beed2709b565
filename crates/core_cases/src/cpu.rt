//! A processor and its pass.
ghost use Rattle.std.specs.Prelude.{◌≡◌, ◌≤◌};
ghost use Rattle.core_lock.specs.Passes.{number};
ghost use Rattle.core_cases.specs.Cpus.{IsCpuOf};

use anyhow::{Context, Result, bail};
use kernel_state::Work;
use normal_cpus::{CpuAnswer, CpuPass, SharedCore, works_go_out};
use ns_ram::Lane;
use smc_abi::Regs;
use std::alloc::Global;
use std::sync::Wait;

/// A processor: its pass, the RAM that it sees, and the work of its open entry, while it is inside.
#[derive(Drop)]
pub struct Cpu {
    pub pass: CpuPass,
    pub lane: Lane,
    pub work: Option<Work>,
}

impl Cpu {
    /// Comes in.
    pub fn enter(
        &mut self,
        rt: &impl Wait,
        alloc: Global,
        shared: &SharedCore,
        regs: &Regs,
        steps: u32,
    ) -> Result<()>
        requires own { IsCpuOf shared.now self.old }
        requires steps { (1 ≤ steps) × (steps ≤ 1000000) }
        ensures own { IsCpuOf shared.now self.new }
        ensures same { number self.new.pass ≡ number self.old.pass }
    {
        works_go_out();
        if self.work.is_some() {
            bail!("a processor comes in twice");
        }
        match shared.enter(rt, alloc, &mut self.pass, &self.lane, regs, steps) {
            Ok(work) => {
                self.work = Some(work);
                Ok(())
            }
            Err(_) => bail!("an entry was refused"),
        }
    }

    /// Does the granted steps, and goes out.
    pub fn leave(&mut self, rt: &impl Wait, shared: &SharedCore) -> Result<CpuAnswer>
        requires own { IsCpuOf shared.now self.old }
        ensures own { IsCpuOf shared.now self.new }
        ensures same { number self.new.pass ≡ number self.old.pass }
    {
        let work = self.work.take().context("a processor goes out twice")?;
        Ok(shared.leave(rt, &mut self.pass, &mut self.lane, work.run()))
    }
}
