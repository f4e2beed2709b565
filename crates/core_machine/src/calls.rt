//! What is done with a machine: its processors come in and go out, and RAM is written and shown.
ghost use Rattle.std.specs.Prelude.{◌≡◌, ℕ, ◌<◌, List, [], ◌∷◌, ◌↔◌, IfOk, IsTrue, Some, length};
ghost use Rattle.core_at_work.specs.Panics.{panic_of};
ghost use Rattle.core_machine.specs.Moving.{EntersAt, LeavesAt};
ghost use Rattle.core_machine.specs.Standing.{CanCome, IsAt, begun};
ghost use Rattle.core_machine.specs.declared.smc.Smc.TheVariants as smc;
ghost use Rattle.kernel_model.specs.Application.{Booted};
ghost use Rattle.kernel_model.specs.Exit.{Exited, exit};
ghost use Rattle.kernel_state.specs.Meaning.{booted_of, events_of, is_inside, terms_of};
ghost use Rattle.ns_ram.specs.Lane.{IsInRam, bytes_at};
ghost use Rattle.ns_ram.specs.Writes.{lane_after};
ghost use Rattle.page_set.specs.Pages.{StaysElsewhere};
ghost use Rattle.play_model.specs.Play.{Play, lane_of, with_writes};

use crate::machine::Machine;
use crate::smc::Smc;
use base::NoMemory;
use core_at_work::{CoreAtWork, Visitor, WentOut};
use exit_pages::pages_of_exit;
use kernel_state::{Core, EnterRefusal};
use ns_ram::{Lane, RAM_BYTES, RAM_START};
use page_set::PageSet;
use std::alloc::Global;

impl Machine {
    /// A machine of a core where nothing has happened, with this RAM for each of its processors.
    pub fn new(alloc: Global, core: Core, lanes: Vec<Lane>) -> Result<Machine, NoMemory>
        requires fresh { events_of core ≡ [] }
        requires lanes { length lanes.items ≡ (booted_of core).cpus }
        ensures stands { IfOk result (λ machine.
            IsAt (booted_of core) (begun (terms_of core).most (booted_of core) lanes.items) machine) }
        ensures terms { IfOk result (λ machine. terms_of machine.at_work.core ≡ terms_of core) }
    {
        let at_work = CoreAtWork::new(alloc, core)?;
        Ok(Machine { at_work, lanes })
    }

    /// A processor that is outside comes in: what its registers ask for is decided by the RAM that it sees, and its granted
    /// steps are done. Where it is refused the machine is as it was.
    pub fn enter(&mut self, alloc: Global, visitor: Visitor) -> Result<(), EnterRefusal>
        requires { CanCome self.old (smc.Comes visitor) }
        ensures enters { (boot : Booted) (play : Play) → IsAt boot play self.old → EntersAt boot play visitor self.new result }
        ensures terms { terms_of self.new.at_work.core ≡ terms_of self.old.at_work.core }
    {
        let place = usize::from(visitor.cpu);
        self.at_work.enter(alloc, visitor, &self.lanes[place])
    }

    /// A processor that is inside goes out, its granted steps done. What it has to say is written to the RAM that it sees.
    /// Takes no memory.
    pub fn leave(&mut self, cpu: u8) -> WentOut
        requires { CanCome self.old (smc.Leaves cpu) }
        ensures leaves { (boot : Booted) (play : Play) → IsAt boot play self.old → LeavesAt boot play cpu self.new result.regs }
        ensures panic { (boot : Booted) (play : Play) → IsAt boot play self.old → result.panic ≡ panic_of play.kernel cpu }
        ensures terms { terms_of self.new.at_work.core ≡ terms_of self.old.at_work.core }
    {
        self.at_work.leave(cpu, &mut self.lanes[usize::from(cpu)])
    }

    /// The pages of RAM to which the exit of a processor that is inside can write.
    pub fn pages_of_exit(&self, cpu: u8) -> PageSet
        requires { CanCome self.now (smc.Leaves cpu) }
        ensures stays { (boot : Booted) (play : Play) (exited : Exited) (lane : List ℕ) → IsAt boot play self.now
            → exit play.kernel cpu ≡ Some exited → length lane ≡ 0x400000
            → StaysElsewhere result lane (lane_after lane exited.writes) }
        ensures long { (boot : Booted) (play : Play) (exited : Exited) (lane : List ℕ) → IsAt boot play self.now
            → exit play.kernel cpu ≡ Some exited → length lane ≡ 0x400000
            → length (lane_after lane exited.writes) ≡ 0x400000 }
    {
        pages_of_exit(self.at_work.outgoing(cpu))
    }

    /// Writes bytes to the RAM that a processor sees, as the normal world does at any time.
    pub fn write(&mut self, cpu: u8, addr: u64, bytes: &[u8])
        requires cpu { cpu < (booted_of self.old.at_work.core).cpus }
        requires ram { IsInRam addr (length bytes.now) }
        ensures written { (boot : Booted) (play : Play) → IsAt boot play self.old
            → IsAt boot (with_writes cpu (record { addr = addr; bytes = bytes.now } ∷ []) play) self.new }
        ensures terms { terms_of self.new.at_work.core ≡ terms_of self.old.at_work.core }
    {
        self.lanes[usize::from(cpu)].write(addr, bytes);
    }

    /// The bytes of the RAM that a processor sees.
    pub fn show(&self, cpu: u8, addr: u64, len: u64) -> &[u8]
        requires cpu { cpu < (booted_of self.now.at_work.core).cpus }
        requires ram { IsInRam addr len }
        ensures bytes { (boot : Booted) (play : Play) → IsAt boot play self.now
            → result.now ≡ bytes_at (lane_of play cpu) addr len }
        ensures len { length result.now ≡ len }
    {
        self.lanes[usize::from(cpu)].at(addr, len)
    }

    /// All of the RAM that a processor sees: RAM_BYTES bytes.
    pub fn ram(&self, cpu: u8) -> &[u8]
        requires { cpu < (booted_of self.now.at_work.core).cpus }
        ensures lane { (boot : Booted) (play : Play) → IsAt boot play self.now → result.now ≡ lane_of play cpu }
        ensures len { length result.now ≡ 0x400000 }
    {
        self.lanes[usize::from(cpu)].at(RAM_START, RAM_BYTES)
    }

    /// Whether a processor is inside. One that there isn't is not.
    pub fn is_inside(&self, cpu: u8) -> bool
        ensures { (boot : Booted) (play : Play) → IsAt boot play self.now → result ≡ is_inside cpu play.kernel }
    {
        self.at_work.core.inside(cpu)
    }

    /// The core, to be read.
    pub fn core(&self) -> &Core
        ensures { result.now ≡ self.now.at_work.core }
    {
        &self.at_work.core
    }

    /// How many processors there are.
    pub fn cpus(&self) -> u8
        ensures { result ≡ (booted_of self.now.at_work.core).cpus }
    {
        self.at_work.cpus()
    }

    /// Whether an entry or an exit can come.
    pub fn can_come(&self, smc: Smc) -> bool
        ensures { IsTrue result ↔ CanCome self.now smc }
    {
        match smc {
            Smc::Comes(visitor) => self.at_work.may_enter(&visitor),
            Smc::Leaves(cpu) => self.at_work.is_inside(cpu),
        }
    }
}
