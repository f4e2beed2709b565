//! A core with its processors, and what each of them was last told.
ghost use Rattle.std.specs.Prelude.{◌≡◌, ◌<◌, ◌++◌, [], ◌∷◌, Err, IfErr, IfOk, IfSome, IsTrue, OnOk, Some, length, slice_get};
ghost use Rattle.core_machine.specs.Panics.{panic_of};
ghost use Rattle.kernel_model.specs.Application.{Booted};
ghost use Rattle.kernel_state.specs.Meaning.{booted_of};
ghost use Rattle.ns_ram.specs.Lane.{IsInRam, bytes_at};
ghost use Rattle.play_model.specs.Line.{mem_line, ret_line};
ghost use Rattle.play_model.specs.Play.{Play, after_item, lane_of, last_answer, with_writes};
ghost use Rattle.trace_text.specs.Sound.{IsPartOfRam};
ghost use Rattle.trace_player.specs.Items.{Begins, ComesIn, GoesOut};
ghost use Rattle.trace_player.specs.Playing.{CanBeTold, CanComeIn, CanGoOut, CanTake, Follows, HasLane, IsPlayedTo, StaysAt, history_of, terms_in};
ghost use Rattle.trace_player.specs.Position.{AreTold, Position, StandsAt, told_too, visit_at};

use crate::exit::Exit;
use answer_lines::{push_mem, push_ret, registers};
use core_machine::{Machine, Told, Visitor, machines_stand, turns_are_taken};
use event_journal::Journal;
use smc_abi::Regs;
use std::alloc::Global;
use trace_text::{Item, Reg};
use word_parts::Stop;

/// The most processors that there are.
pub const MAX_CPUS: usize = 8;

/// A core with its processors, and what each of them was last told: zeros before any.
#[derive(Drop)]
pub struct Player {
    machine: Machine,
    answers: [Regs; MAX_CPUS],
}

impl Player {
    /// Nobody was told anything yet.
    pub(crate) fn new(machine: Machine) -> Player
        ensures machine { result.machine ≡ machine }
        ensures answers { AreTold 8 (last_answer []) result.answers }
    {
        Player {
            machine,
            answers: [Regs { a: [0; 8] }; MAX_CPUS],
        }
    }

    /// The core with its processors.
    pub fn machine(&self) -> &Machine
        ensures { result.now ≡ self.now.machine }
    {
        &self.machine
    }

    /// The journal of a core that keeps its events: all entries and exits so far.
    pub fn journal(&self) -> &Journal
        requires { IsTrue (terms_in self.now).keeps }
        ensures { result.now.events ≡ history_of self.now }
    {
        self.machine.core().journal()
    }

    /// What a processor was last told.
    fn answer_to(&self, cpu: u8) -> Regs
        requires { cpu < 8 }
        ensures { slice_get self.now.answers cpu ≡ Some result }
    {
        self.answers[usize::from(cpu)]
    }

    /// A processor that is outside comes in with these registers, of which each is a number or one of those that it was last
    /// told, and its granted steps, from 1 to 1,000,000, are done. `Full` where all entries would then have read more bytes
    /// than they may, `Memory` for want of it: at either the player is as it was.
    pub fn enter(&mut self, alloc: Global, cpu: u8, steps: u32, regs: &[Reg; 8]) -> Result<(), Stop>
        requires { CanComeIn self.old.machine cpu steps regs.now }
        ensures comes { (boot : Booted) (at : Position) → StandsAt boot at self.old
            → ComesIn boot at (visit_at at cpu steps regs.now) result self.new }
        ensures inside { OnOk result (CanGoOut self.new.machine cpu) }
        ensures never_fails { result ≡ Err Stop.Failed → ⊥ }
        ensures terms { terms_in self.new ≡ terms_in self.old }
    {
        machines_stand();
        turns_are_taken();
        let regs = registers(&self.answer_to(cpu), regs);
        self.machine.enter(alloc, Visitor { cpu, regs, steps })?;
        Ok(())
    }

    /// A processor that is inside goes out of the core, which writes to the RAM that it sees; it is told nothing yet, and
    /// `tell` is to follow. Gives the kernel's answer, and the panic in which its call has ended, if it did. Takes no memory.
    pub fn leave(&mut self, cpu: u8) -> Exit
        requires { CanGoOut self.old.machine cpu }
        ensures leaves { (boot : Booted) (at : Position) → StandsAt boot at self.old → GoesOut boot at result.answer self.new }
        ensures panic { (boot : Booted) (at : Position) → StandsAt boot at self.old → result.panic ≡ panic_of at.play.kernel cpu }
        ensures told { CanBeTold self.new.machine cpu }
        ensures cpu { result.answer.cpu ≡ cpu }
        ensures terms { terms_in self.new ≡ terms_in self.old }
    {
        machines_stand();
        let out = self.machine.leave(cpu);
        Exit {
            answer: Told {
                cpu,
                regs: out.regs,
            },
            panic: out.panic,
        }
    }

    /// A processor that has gone out is told these registers, and their line is appended. Want of memory is all that stops it: a
    /// part of the line may stand behind the lines then.
    pub fn tell(&mut self, cpu: u8, regs: Regs, lines: &mut Vec<u8>) -> Result<(), Stop>
        requires { CanBeTold self.old.machine cpu }
        ensures tells { (boot : Booted) (at : Position) → StandsAt boot at self.old
            → StandsAt boot (told_too cpu regs.a at) self.new }
        ensures line { OnOk result (lines.new.items ≡ lines.old.items ++ ret_line cpu regs.a) }
        ensures memory { IfErr result (λ stop. stop ≡ Stop.Memory) }
        ensures terms { terms_in self.new ≡ terms_in self.old }
    {
        self.answers[usize::from(cpu)] = regs;
        push_ret(lines, cpu, &regs)?;
        Ok(())
    }

    /// Writes bytes to the RAM that a processor sees.
    pub fn write(&mut self, cpu: u8, addr: u64, bytes: &[u8])
        requires cpu { HasLane self.old.machine cpu }
        requires ram { IsInRam addr (length bytes.now) }
        ensures writes { (boot : Booted) (at : Position) → StandsAt boot at self.old → StandsAt boot
            (record at { play = with_writes cpu (record { addr = addr; bytes = bytes.now } ∷ []) at.play }) self.new }
        ensures boot { booted_of self.new.machine.at_work.core ≡ booted_of self.old.machine.at_work.core }
        ensures terms { terms_in self.new ≡ terms_in self.old }
    {
        machines_stand();
        self.machine.write(cpu, addr, bytes);
    }

    /// Prints bytes of a processor's RAM.
    fn show(
        &self,
        alloc: Global,
        cpu: u8,
        addr: u64,
        len: u32,
        lines: &mut Vec<u8>,
    ) -> Result<(), Stop>
        requires lane { HasLane self.now.machine cpu }
        requires part { IsPartOfRam addr len }
        ensures shows { (boot : Booted) (at : Position) → StandsAt boot at self.now
            → OnOk result (lines.new.items ≡ lines.old.items ++ mem_line cpu addr (bytes_at (lane_of at.play cpu) addr len)) }
        ensures memory { IfErr result (λ stop. stop ≡ Stop.Memory) }
    {
        let bytes = self.machine.show(cpu, addr, u64::from(len));
        push_mem(alloc, lines, cpu, addr, bytes)?;
        Ok(())
    }

    /// Plays an item up to where a processor goes out of the core by it, if one does, and gives its exit: that one is told
    /// nothing yet, and `tell` is to follow. Where an entry is refused, nothing is printed, and the player is as it was; at
    /// want of memory a part of a line may stand behind the lines.
    pub fn begin_item(
        &mut self,
        alloc: Global,
        item: &Item,
        lines: &mut Vec<u8>,
    ) -> Result<Option<Exit>, Stop>
        requires { CanTake self.old item.now }
        ensures begins { (boot : Booted) (at : Position) → StandsAt boot at self.old
            → Begins boot at item.now result self.new lines.old.items lines.new.items }
        ensures told { IfOk result (λ out. IfSome out (λ exit. CanBeTold self.new.machine exit.answer.cpu)) }
        ensures never_fails { result ≡ Err Stop.Failed → ⊥ }
        ensures terms { terms_in self.new ≡ terms_in self.old }
    {
        match item {
            Item::Smc { cpu, steps, regs } => {
                self.enter(alloc, *cpu, *steps, regs)?;
                Ok(Some(self.leave(*cpu)))
            }
            Item::Enter { cpu, steps, regs } => {
                self.enter(alloc, *cpu, *steps, regs)?;
                Ok(None)
            }
            Item::Leave { cpu } => Ok(Some(self.leave(*cpu))),
            Item::Write { cpu, addr, bytes } => {
                self.write(*cpu, *addr, bytes.as_slice());
                Ok(None)
            }
            Item::Show { cpu, addr, len } => {
                self.show(alloc, *cpu, *addr, *len, lines)?;
                Ok(None)
            }
        }
    }

    /// Plays an item, of which a processor that goes out is told the kernel's answer, and appends what it prints to the lines.
    /// Where an entry is refused, nothing is printed, and the player is as it was; at want of memory a part of a line may
    /// stand behind the lines.
    pub fn play_item(&mut self, alloc: Global, item: &Item, lines: &mut Vec<u8>) -> Result<(), Stop>
        requires { CanTake self.old item.now }
        ensures follows { (boot : Booted) (play : Play) → IsPlayedTo boot play self.old
            → Follows boot play (after_item boot item.now play) result self.new lines.old.items lines.new.items }
        ensures refused { result ≡ Err Stop.Full → StaysAt self.old self.new }
        ensures never_fails { result ≡ Err Stop.Failed → ⊥ }
        ensures terms { terms_in self.new ≡ terms_in self.old }
    {
        match self.begin_item(alloc, item, lines)? {
            Some(exit) => self.tell(exit.answer.cpu, exit.answer.regs, lines),
            None => Ok(()),
        }
    }
}
