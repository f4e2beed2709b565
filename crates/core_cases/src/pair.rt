//! The two processors of a core, and how they come and go.
ghost use Rattle.std.specs.Prelude.{◌≡◌, ◌≤◌, ◌∷◌, [], map, IfOk, vec_capacity, vec_len};
ghost use Rattle.core_lock.specs.Passes.{AreUnused, number};
ghost use Rattle.normal_cpus.specs.Sharing.{AreCpusOf, boot_of};
ghost use Rattle.kernel_state.specs.Meaning.{booted_of, terms_of};
ghost use Rattle.kernel_state.specs.Terms.{kept_terms};
ghost use Rattle.core_cases.specs.Cpus.{IsPairOf};

use crate::cpu::Cpu;
use anyhow::{Result, bail};
use kernel_state::Core;
use normal_cpus::{CpuAnswer, CpuPass, SharedCore};
use ns_ram::{Lane, in_ram};
use smc_abi::Regs;
use std::alloc::Global;
use std::sync::Wait;

/// Processors 0 and 1.
#[derive(Drop)]
pub struct Pair {
    pub first: Cpu,
    pub second: Cpu,
}

/// The passes 0 and 1, and the room where they lay.
fn two_of(mut passes: Vec<CpuPass>) -> (CpuPass, CpuPass, Vec<CpuPass>)
    requires { map number passes.items ≡ 0 ∷ 1 ∷ [] }
    ensures { (passes.items ≡ result.0 ∷ result.1 ∷ []) × (result.2.items ≡ []) × (vec_len result.2 ≡ 0) × (vec_capacity result.2 ≡ vec_capacity passes) }
{
    let (Some(second), Some(first)) = (passes.pop(), passes.pop()) else {
        unreachable!()
    };
    (first, second, passes)
}

impl Pair {
    /// The processors of a core that was just shared, with the RAM that each sees. The room of their passes comes back.
    pub fn new(
        shared: &SharedCore,
        passes: Vec<CpuPass>,
        one: Lane,
        two: Lane,
    ) -> (Pair, Vec<CpuPass>)
        requires numbers { map number passes.items ≡ 0 ∷ 1 ∷ [] }
        requires own { AreCpusOf shared.now passes.items × AreUnused passes.items }
        ensures own { IsPairOf shared.now result.0 }
        ensures room { (result.1.items ≡ []) × (vec_len result.1 ≡ 0) × (vec_capacity result.1 ≡ vec_capacity passes) }
    {
        let (first, second, room) = two_of(passes);
        let pair = Pair {
            first: Cpu {
                pass: first,
                lane: one,
                work: None,
            },
            second: Cpu {
                pass: second,
                lane: two,
                work: None,
            },
        };
        (pair, room)
    }

    /// The processor comes in.
    pub fn enter(
        &mut self,
        rt: &impl Wait,
        alloc: Global,
        shared: &SharedCore,
        cpu: u8,
        regs: &Regs,
        steps: u32,
    ) -> Result<()>
        requires own { IsPairOf shared.now self.old }
        ensures own { IsPairOf shared.now self.new }
    {
        if steps == 0 || steps > 1_000_000 {
            bail!("steps that can't be granted");
        }
        match cpu {
            0 => self.first.enter(rt, alloc, shared, regs, steps),
            1 => self.second.enter(rt, alloc, shared, regs, steps),
            _ => bail!("no such processor"),
        }
    }

    /// The processor does its steps, and goes out.
    pub fn leave(&mut self, rt: &impl Wait, shared: &SharedCore, cpu: u8) -> Result<CpuAnswer>
        requires own { IsPairOf shared.now self.old }
        ensures own { IsPairOf shared.now self.new }
    {
        match cpu {
            0 => self.first.leave(rt, shared),
            1 => self.second.leave(rt, shared),
            _ => bail!("no such processor"),
        }
    }

    /// The RAM that the processor sees.
    pub fn lane(&self, cpu: u8) -> Result<&Lane> {
        match cpu {
            0 => Ok(&self.first.lane),
            1 => Ok(&self.second.lane),
            _ => bail!("no such processor"),
        }
    }

    /// Writes bytes to the RAM that the processor sees.
    pub fn write(&mut self, shared: &SharedCore, cpu: u8, addr: u64, bytes: &[u8]) -> Result<()>
        requires own { IsPairOf shared.now self.old }
        ensures own { IsPairOf shared.now self.new }
    {
        if !in_ram(addr, bytes.len() as u64) {
            bail!("a write outside of RAM");
        }
        match cpu {
            0 => self.first.lane.write(addr, bytes),
            1 => self.second.lane.write(addr, bytes),
            _ => bail!("no such processor"),
        }
        Ok(())
    }

    /// Both give their passes back, for which there is room, and the core comes back.
    pub fn close(self, shared: SharedCore, mut passes: Vec<CpuPass>) -> Core
        requires own { IsPairOf shared self }
        requires room { (passes.items ≡ []) × (vec_len passes ≡ 0) × (2 ≤ vec_capacity passes) }
        requires count { (boot_of shared).cpus ≡ 2 }
        ensures boot { booted_of result ≡ boot_of shared }
        ensures kept { terms_of result ≡ kept_terms }
    {
        let Pair { first, second } = self;
        passes.push_reserved(first.pass);
        passes.push_reserved(second.pass);
        shared.close(passes)
    }
}
