//! What each thread is given.
ghost use Rattle.std.specs.Prelude.{◌≡◌, ◌<◌, length, IfOk, ℕ, List, All, slice_index_or};
ghost use Rattle.normal_cpus.specs.Sharing.{CpuPass};

use normal_cpus::CpuPass;
use ns_ram::Lane;
use std::alloc::{AllocError, Global};

/// The passes, each with the RAM of its place.
pub fn jobs_of(
    alloc: Global,
    passes: Vec<CpuPass>,
    lanes: Vec<Lane>,
) -> Result<Vec<(CpuPass, Lane)>, AllocError>
    requires { length passes.items ≡ length lanes.items }
    ensures len { IfOk result (λ jobs. length jobs.items ≡ length passes.items) }
    ensures each { IfOk result (λ jobs. (i : ℕ) (pass : CpuPass) (lane : List ℕ) → i < length passes.items
        → slice_index_or jobs.items i (pass, lane) ≡ (slice_index_or passes.items i pass, slice_index_or lanes.items i lane)) }
{
    passes.into_iter().zip(lanes).collect(alloc)
}
