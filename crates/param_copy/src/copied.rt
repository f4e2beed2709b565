ghost use Rattle.std.specs.Prelude.{◌≡◌, ◌≤◌, [], length, IfOk, IfErr, Some, Ok, Err};
ghost use Rattle.ns_ram.specs.Reader.{outcome_over, over_lane, reading};
ghost use Rattle.ns_ram.specs.Reads.{HoldsReads};
ghost use Rattle.param_copy.specs.Copying.{copying};
ghost use Rattle.param_copy.specs.Outcome.{UnlessMemory, copies_of};
ghost use Rattle.param_copy.specs.Places.{ArePlaced};
ghost use Rattle.param_copy.specs.WritingBack.{params_of};

use crate::fault::CopyFault;
use crate::take::take_params;
use crate::taken::TakenParams;
use arrayvec::ArrayVec;
use base::Sequence;
use msg_args::MsgParam;
use ns_ram::{Lane, Reads};
use shm_registry::{Piece, Registry};
use std::alloc::Global;
use std::default::MadeWith;
use ta_params::CopiedParams;

/// The most bytes of one memory parameter.
pub const MAX_MEMREF_BYTES: u64 = 65536;

/// Where a parameter of a call came from, and where its results go.
#[derive(Drop)]
pub struct Place {
    /// The number of the parameter in the argument, counted from 0.
    pub number: u8,
    /// The pieces of RAM that its bytes lie in, in their order. A parameter that isn't memory has none.
    pub pieces: Sequence<Piece>,
}

/// A place of no pieces stands in the unused places of a list of fixed capacity.
impl MadeWith<Global> for Place {
    fn made_with(alloc: Global) -> Place {
        Place {
            number: 0,
            pieces: Sequence::of(Vec::new(alloc)),
        }
    }
}

/// A place for each parameter of a call, in their order.
pub type Places = ArrayVec<Place, 4, Global>;

/// The parameters of a call, copied out of RAM.
#[derive(Drop)]
pub struct Copied {
    /// The parameters; behind the last one all are empty.
    pub params: CopiedParams,
    /// One for each parameter.
    pub places: Places,
    /// The cookies of the parameters that are parts of registered buffers, in the order of the parameters.
    pub cookies: ArrayVec<u64, 4>,
    /// What was read.
    pub reads: Reads,
}

/// Copies the parameters of a call, of which the first has the number `first` in the argument, with the list
/// of what was read: of each parameter its page lists and then its bytes. `take_params` lists that also where
/// a parameter is refused.
pub fn copy_in(
    alloc: Global,
    lane: &Lane,
    registry: &Registry,
    params: &[MsgParam],
    first: u8,
) -> Result<Copied, CopyFault>
    requires few { length params.now ≤ 4 }
    requires first { first ≤ 2 }
    ensures ok { IfOk result (λ copied.
        over_lane (copying registry.now.buffers params.now first) lane.now []
        ≡ Some (Ok (copies_of copied), copied.reads)) }
    // What was read are bytes of the lane, and they alone decide.
    ensures reads { IfOk result (λ copied. HoldsReads lane.now copied.reads
        × (reading (copying registry.now.buffers params.now first) copied.reads
        ≡ Some (Ok (copies_of copied)))) }
    ensures faulty { IfErr result (λ fault. UnlessMemory fault
        (outcome_over (copying registry.now.buffers params.now first) lane.now
        ≡ Some (Err fault))) }
    ensures placed { IfOk result (λ copied.
        ArePlaced first (length params.now) copied.places.items (params_of copied.params)) }
{
    let mut reads = Reads::new(alloc);
    let TakenParams {
        params,
        places,
        cookies,
    } = take_params(alloc, lane, registry, params, first, &mut reads)?;
    Ok(Copied {
        params,
        places,
        cookies,
        reads,
    })
}
