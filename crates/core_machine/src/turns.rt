//! Whether a list can be served.
ghost use Rattle.std.specs.Prelude.{◌≡◌, ◌↔◌, not, IfOk, IsTrue, Some, slice_get, slice_set};
ghost use Rattle.std.specs.Bool.{OnTrue};
ghost use Rattle.core_machine.specs.Standing.{CanAllCome};
ghost use Rattle.core_machine.specs.Turns.{ComeInTurn, MayCome, inside_after};

use crate::machine::Machine;
use crate::smc::Smc;
use base::NoMemory;
use core_at_work::MOST_STEPS;
use std::alloc::Global;

impl Machine {
    /// Whether a list can be served: each of it can come behind those before it.
    pub fn can_serve(&self, alloc: Global, smcs: &[Smc]) -> Result<bool, NoMemory>
        ensures { IfOk result (λ can. IsTrue can ↔ CanAllCome self.now smcs.now) }
    {
        let mut inside = self.at_work.insides(alloc)?;
        Ok(come_in_turn(inside.as_mut_slice(), smcs))
    }
}

/// Whether each of a list can come behind those before it, where these are inside.
fn come_in_turn(inside: &mut [bool], smcs: &[Smc]) -> bool
    ensures { IsTrue result ↔ ComeInTurn inside.old smcs.now }
{
    for smc in smcs {
        if !comes_next(inside, *smc) {
            return false;
        }
    }
    true
}

/// Whether one can come where these are inside. They then are those behind it.
fn comes_next(inside: &mut [bool], smc: Smc) -> bool
    ensures may { IsTrue result ↔ MayCome inside.old smc }
    ensures after { OnTrue result (inside.new ≡ inside_after inside.old smc) }
{
    match smc {
        Smc::Comes(visitor) => {
            (1..=MOST_STEPS).contains(&visitor.steps) && turns(inside, visitor.cpu, true)
        }
        Smc::Leaves(cpu) => turns(inside, cpu, false),
    }
}

/// Turns a processor's standing to this, where there is one and it stands the other way.
fn turns(inside: &mut [bool], cpu: u8, comes: bool) -> bool
    ensures may { IsTrue result ↔ (slice_get inside.old cpu ≡ Some (not comes)) }
    ensures after { OnTrue result (inside.new ≡ slice_set inside.old cpu comes) }
{
    let place = usize::from(cpu);
    if place >= inside.len() || inside[place] == comes {
        return false;
    }
    inside[place] = comes;
    true
}
