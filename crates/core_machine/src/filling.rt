//! The RAM that processors see at first.
ghost use Rattle.std.specs.Prelude.{◌≡◌, All, IfOk, replicate};
ghost use Rattle.base.specs.Zeros.{zeros};
ghost use Rattle.play_model.specs.Play.{filled};
ghost use Rattle.trace_text.specs.Sound.{IsSoundFill};

use base::NoMemory;
use ns_ram::Lane;
use std::alloc::Global;
use trace_text::Fill;

/// The RAM that a processor sees at first: zeros, with these fills.
pub fn first_lane(alloc: Global, fills: &[Fill]) -> Result<Lane, NoMemory>
    requires { All IsSoundFill fills.now }
    ensures { IfOk result (λ lane. lane ≡ filled (zeros 0x400000) fills.now) }
{
    let mut lane = Lane::new(alloc)?;
    for fill in fills {
        lane.write(fill.addr, fill.bytes.as_slice());
    }
    Ok(lane)
}

/// The RAM of each of so many processors, at first: zeros, with these fills.
pub fn first_lanes(alloc: Global, cpus: u8, fills: &[Fill]) -> Result<Vec<Lane>, NoMemory>
    requires { All IsSoundFill fills.now }
    ensures { IfOk result (λ lanes. lanes.items ≡ replicate cpus (filled (zeros 0x400000) fills.now)) }
{
    let mut lanes = Vec::with_capacity(alloc, usize::from(cpus))?;
    for _ in 0..cpus {
        lanes.push(first_lane(alloc, fills)?)?;
    }
    Ok(lanes)
}
