ghost use Rattle.std.specs.Prelude.{◌≡◌, ◌<◌, true, false, [], ◌∷◌, ◌++◌, length, slice_get, Some, IfOk, OnOk, OnErr, IsErrOf};
ghost use Rattle.std.specs.List.{AllByRecursion};
ghost use Rattle.ns_ram.specs.Lane.{IsInRam, bytes_at, bytes_put};
ghost use Rattle.ns_ram.specs.Writes.{IsWriteOfRam, lane_after};
ghost use Rattle.smc_abi.specs.declared.regs.Regs.{Regs};
ghost use Rattle.smc_port.specs.ListedPort.{TakesTurn, has_turn, smcs_made};
ghost use Rattle.smc_port.specs.Smc.{Makes};

use crate::port::{PortRefusal, SmcPort};
use crate::ram_write::RamWrite;
use crate::turn::Turn;
use crate::world::World;
use base::NoMemory;
use ns_ram::Lane;
use smc_abi::Regs;
use std::alloc::Global;
use std::marker::Model;

/// A port that answers by a list, whatever it is asked. It has room for as many SMCs as the list has turns, and
/// keeps the registers of those made.
#[derive(Drop)]
pub struct ListedPort {
    lane: Lane,
    turns: Vec<Turn>,
    made: Vec<Regs>,
}

impl Model for ListedPort {
    ghost use Rattle.std.specs.Prelude.{◌≡◌, ◌≤◌, length};
    ghost use Rattle.smc_port.specs.ListedPort.{Listed};

    ghost Value = { Listed };

    ghost view = { λ port. record { ram = port.lane; turns = port.turns.items; made = port.made.items } };

    ghost invariant = { λ port. (length port.lane ≡ 0x400000) × (length port.made.items ≤ length port.turns.items) };
}

impl ListedPort {
    /// A port over this RAM that does this at each SMC in turn. Takes no memory.
    pub fn new(alloc: Global, lane: Lane, turns: Vec<Turn>) -> ListedPort
        ensures { result ≡ record { ram = lane; turns = turns.items; made = [] } }
    {
        whole(&lane);
        ListedPort {
            lane,
            turns,
            made: Vec::new(alloc),
        }
    }

    /// The registers of the SMCs made, the first one first.
    pub fn made(&self) -> &[Regs]
        ensures { result.now ≡ self.now.made }
    {
        self.made.as_slice()
    }
}

impl SmcPort for ListedPort {
    ghost ram = { λ port. port.ram };

    ghost made = { λ port. smcs_made port };

    ghost has_room = { λ port regs. has_turn port };

    fn smc(&mut self, regs: Regs) -> Result<Regs, PortRefusal>
        ensures made { IfOk result (λ answer.
            Makes self.old.ram (smcs_made self.old) regs answer self.new.ram (smcs_made self.new)) }
        ensures room { OnOk result (has_turn self.old ≡ true) }
        ensures spent { IsErrOf result PortRefusal.Spent → has_turn self.old ≡ false }
        ensures ram_stays { OnErr result (self.new.ram ≡ self.old.ram) }
        ensures made_stays { OnErr result (smcs_made self.new ≡ smcs_made self.old) }
        ensures room_stays { OnErr result ((next : Regs) → has_turn self.new ≡ has_turn self.old) }
        ensures whole { length self.new.ram ≡ 0x400000 }

        // A list without a turn left is always told, and which answer comes, and all that the call changes.
        ensures told { has_turn self.old ≡ false → IsErrOf result PortRefusal.Spent }
        ensures turn { IfOk result (λ answer. TakesTurn self.old regs answer self.new) }
        ensures unchanged { OnErr result (self.new ≡ self.old) }
    {
        if self.made.len() == self.turns.len() {
            return Err(PortRefusal::Spent);
        }
        let turn = next_turn(self.turns.as_slice(), self.made.as_slice());
        let Ok(()) = keep(&mut self.made, regs) else {
            return Err(PortRefusal::Memory);
        };
        put_all(&mut self.lane, turn.writes.as_slice());
        Ok(turn.answer)
    }
}

impl World for ListedPort {
    fn peek(&self, addr: u64, out: &mut [u8])
        requires { IsInRam addr (length out.old) }
        ensures bytes { out.new ≡ bytes_at self.now.ram addr (length out.old) }
        ensures whole { length self.now.ram ≡ 0x400000 }
    {
        self.lane.read(addr, out);
    }

    fn poke(&mut self, addr: u64, bytes: &[u8])
        requires { IsInRam addr (length bytes.now) }
        ensures bytes { self.new.ram ≡ bytes_put self.old.ram addr bytes.now }
        ensures made { smcs_made self.new ≡ smcs_made self.old }
        ensures whole { length self.new.ram ≡ 0x400000 }
        ensures others { self.new ≡ record self.old { ram = bytes_put self.old.ram addr bytes.now } }
    {
        self.lane.write(addr, bytes);
    }
}

/// That a lane has all bytes of RAM.
fn whole(lane: &Lane)
    ensures { length lane.now ≡ 0x400000 }
{
    let _none = lane.at(ns_ram::RAM_START, 0);
}

/// What is done at the SMC behind those made.
fn next_turn<'a>(turns: &'a [Turn], made: &[Regs]) -> &'a Turn
    requires { length made.now < length turns.now }
    ensures { slice_get turns.now (length made.now) ≡ Some result.now }
{
    &turns[made.len()]
}

/// Keeps the registers of one more SMC.
fn keep(made: &mut Vec<Regs>, regs: Regs) -> Result<(), NoMemory>
    ensures kept { OnOk result (made.new.items ≡ made.old.items ++ regs ∷ []) }
    ensures refused { OnErr result (made.new.items ≡ made.old.items) }
{
    made.push(regs)?;
    Ok(())
}

/// Makes the writes in their order.
fn put_all(lane: &mut Lane, writes: &[RamWrite])
    ensures written { lane.new ≡ lane_after lane.old writes.now }
    ensures inside { AllByRecursion IsWriteOfRam writes.now }
    ensures whole { length lane.old ≡ 0x400000 → length lane.new ≡ 0x400000 }
{
    for write in writes {
        lane.write(write.addr(), write.bytes());
    }
}
