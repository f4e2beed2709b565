//! A processor at work: it comes in, goes out, and writes and shows its RAM.
ghost use Rattle.std.specs.Prelude.{◌≡◌, ◌≤◌, ◌<◌, ◌∷◌, ℕ, true, false, List, Some, All, OnOk, length};
ghost use Rattle.std.specs.Option.{is_some};
ghost use Rattle.std.specs.Result.{is_ok};
ghost use Rattle.core_lock.specs.Passes.{number};
ghost use Rattle.kernel_model.specs.Application.{Booted};
ghost use Rattle.normal_cpus.specs.Sharing.{boot_of};
ghost use Rattle.ns_ram.specs.Lane.{bytes_put};
ghost use Rattle.ordered_play.specs.Act.{Act, Comes, Leaves, Shows};
ghost use Rattle.trace_text.specs.Sound.{IsPartOfRam, IsSoundReg};
ghost use Rattle.trace_text.specs.declared.item.Item.{Item};
ghost use Rattle.threads_play.specs.Standing.{GoesOn, HasComeTo, HasGoneOut, IsOn, LeadsTo};

use crate::lines::push_answer;
use answer_lines::{push_mem, registers};
use kernel_state::{EnterRefusal, Work};
use normal_cpus::{CpuAnswer, CpuPass, SharedCore, works_go_out};
use ns_ram::Lane;
use ports::Pace;
use smc_abi::Regs;
use std::alloc::{AllocError, Global};
use std::sync::Wait;
use trace_text::Reg;

/// A processor at work: its pass, the RAM that it sees, its last answer (zeros before any), while it is inside the work of its
/// open entry, how many of its calls have gone out, and its lines so far.
#[derive(Drop)]
pub struct CpuPlayer {
    pub pass: CpuPass,
    pub lane: Lane,
    pub answer: Regs,
    pub work: Option<Work>,
    pub calls: u32,
    pub block: Vec<u8>,
}

/// Puts a work where it is kept.
fn put(kept: &mut Option<Work>, work: Work)
    ensures { kept.new ≡ Some work }
{
    *kept = Some(work);
}

impl CpuPlayer {
    /// The processor's number.
    pub fn cpu(&self) -> u8
        requires { number self.now.pass < 8 }
        ensures { result ≡ number self.now.pass }
    {
        self.pass.number() as u8
    }

    /// It comes in, under one turn.
    pub fn enter(
        &mut self,
        rt: &impl Wait,
        alloc: Global,
        shared: &SharedCore,
        steps: u32,
        regs: &[Reg; 8],
    ) -> Result<(), EnterRefusal>
        requires on { IsOn shared.now self.old }
        requires outside { is_some self.old.work ≡ false }
        requires steps { (1 ≤ steps) × (steps ≤ 1000000) }
        requires sound { All IsSoundReg regs.now }
        ensures on { GoesOn shared.now self.old self.new }
        ensures inside { is_some self.new.work ≡ is_ok result }
        ensures comes { (items : List Item) (lane : List ℕ) (acts : List Act)
            → HasComeTo (boot_of shared.now) items lane (Comes steps regs.now ∷ acts) self.old
            → LeadsTo (boot_of shared.now) items lane acts self.new result }
    {
        works_go_out();
        let given = registers(&self.answer, regs);
        let work = shared.enter(rt, alloc, &mut self.pass, &self.lane, &given, steps)?;
        put(&mut self.work, work);
        Ok(())
    }

    /// It does its granted steps, and goes out under one turn. Nothing is printed yet. Takes no memory.
    pub fn go_out(&mut self, rt: &impl Wait, shared: &SharedCore, pace: &impl Pace) -> CpuAnswer
        requires on { IsOn shared.now self.old }
        requires inside { is_some self.old.work ≡ true }
        ensures on { GoesOn shared.now self.old self.new }
        ensures outside { is_some self.new.work ≡ false }
        ensures goes { (items : List Item) (lane : List ℕ) (acts : List Act)
            → HasComeTo (boot_of shared.now) items lane (Leaves ∷ acts) self.old
            → HasGoneOut (boot_of shared.now) items lane acts self.new result }
    {
        let Some(work) = self.work.take() else {
            unreachable!()
        };
        let ran = work.run();
        self.calls = self.calls.saturating_add(1);
        pace.between(self.cpu(), self.calls);
        let answer = shared.leave(rt, &mut self.pass, &mut self.lane, ran);
        self.answer = answer.regs;
        answer
    }

    /// It goes out, and its answer is printed.
    pub fn leave(
        &mut self,
        rt: &impl Wait,
        shared: &SharedCore,
        pace: &impl Pace,
    ) -> Result<(), EnterRefusal>
        requires on { IsOn shared.now self.old }
        requires inside { is_some self.old.work ≡ true }
        ensures on { GoesOn shared.now self.old self.new }
        ensures outside { is_some self.new.work ≡ false }
        ensures leaves { (items : List Item) (lane : List ℕ) (acts : List Act)
            → HasComeTo (boot_of shared.now) items lane (Leaves ∷ acts) self.old
            → LeadsTo (boot_of shared.now) items lane acts self.new result }
    {
        let answer = self.go_out(rt, shared, pace);
        let cpu = self.cpu();
        match push_answer(&mut self.block, cpu, &answer) {
            Ok(()) => Ok(()),
            Err(_) => Err(EnterRefusal::Memory),
        }
    }

    /// Bytes are written to its RAM.
    pub fn write(&mut self, addr: u64, bytes: &[u8])
        requires { IsPartOfRam addr (length bytes.now) }
        ensures { self.new ≡ record self.old { lane = bytes_put self.old.lane addr bytes.now } }
    {
        self.lane.write(addr, bytes);
    }

    /// Bytes of its RAM are printed.
    pub fn show(&mut self, alloc: Global, addr: u64, len: u32) -> Result<(), AllocError>
        requires few { number self.old.pass < 8 }
        requires part { IsPartOfRam addr len }
        ensures pass { self.new.pass ≡ self.old.pass }
        ensures work { self.new.work ≡ self.old.work }
        ensures shows { (boot : Booted) (items : List Item) (lane : List ℕ) (acts : List Act)
            → HasComeTo boot items lane (Shows addr len ∷ acts) self.old
            → OnOk result (HasComeTo boot items lane acts self.new) }
    {
        let cpu = self.cpu();
        let bytes = self.lane.at(addr, u64::from(len));
        push_mem(alloc, &mut self.block, cpu, addr, bytes)
    }
}
