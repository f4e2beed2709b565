//! The parameters of a call, one after the other.

ghost use Rattle.std.specs.Prelude.{◌≡◌, ◌≤◌, ◌↔◌, [], length, IsTrue, IsErrOf, IfOk, IfErr, Some, None, Ok, Err};
ghost use Rattle.std.specs.List.{AllByRecursion};
ghost use Rattle.ns_ram.specs.Pages.{AppendsReads};
ghost use Rattle.ns_ram.specs.Reader.{over_lane};
ghost use Rattle.shm_registry.specs.Pieces.{IsPieceOfRam};
ghost use Rattle.param_copy.specs.Copying.{copied_param, copying, memory, value_in};
ghost use Rattle.param_copy.specs.Memory.{bytes_in, rmem_pieces, tmem_pieces};
ghost use Rattle.param_copy.specs.Outcome.{IfMemory, UnlessMemory, copies_in};
ghost use Rattle.param_copy.specs.Places.{ArePlaced, IsPlaced};
ghost use Rattle.param_copy.specs.WritingBack.{params_of};

use crate::copied::Place;
use crate::fault::CopyFault;
use crate::memory::{rmem_pieces, take_bytes_of, tmem_pieces};
use crate::taken::{CopiedParam, TakenParams};
use base::Sequence;
use msg_args::{MsgParam, ParamKind};
use ns_ram::{Lane, Reads};
use shm_registry::{Piece, Registry};
use std::alloc::Global;
use ta_params::{Buf, GpParam, Way};

/// Copies the parameters of a call, of which the first has the number `first` in the argument, and lists what
/// it reads, also where it finds a fault: of each parameter its page lists and then its bytes. At want of
/// memory the list of reads is as it was.
pub fn take_params(
    alloc: Global,
    lane: &Lane,
    registry: &Registry,
    params: &[MsgParam],
    first: u8,
    reads: &mut Reads,
) -> Result<TakenParams, CopyFault>
    requires few { length params.now ≤ 4 }
    requires first { first ≤ 2 }
    ensures ok { IfOk result (λ taken.
        over_lane (copying registry.now.buffers params.now first) lane.now reads.old
        ≡ Some (Ok (copies_in taken), reads.new)) }
    ensures faulty { IfErr result (λ fault. UnlessMemory fault
        (over_lane (copying registry.now.buffers params.now first) lane.now reads.old
        ≡ Some (Err fault, reads.new))) }
    ensures memory { IfErr result (λ fault. IfMemory fault (reads.new ≡ reads.old)) }
    ensures placed { IfOk result (λ taken.
        ArePlaced first (length params.now) taken.places.items (params_of taken.params)) }
{
    let listed = reads.len();
    let taken = take_all(alloc, lane, registry, params, first, reads);
    if is_want_of_memory(&taken) {
        reads.truncate(listed);
    }
    taken
}

fn is_want_of_memory(taken: &Result<TakenParams, CopyFault>) -> bool
    ensures { IsTrue result ↔ IsErrOf taken.now CopyFault.Memory }
{
    matches!(taken, Err(CopyFault::Memory))
}

fn take_all(
    alloc: Global,
    lane: &Lane,
    registry: &Registry,
    params: &[MsgParam],
    first: u8,
    reads: &mut Reads,
) -> Result<TakenParams, CopyFault>
    requires few { length params.now ≤ 4 }
    requires first { first ≤ 2 }
    ensures ok { IfOk result (λ taken.
        over_lane (copying registry.now.buffers params.now first) lane.now reads.old
        ≡ Some (Ok (copies_in taken), reads.new)) }
    ensures faulty { IfErr result (λ fault. UnlessMemory fault
        (over_lane (copying registry.now.buffers params.now first) lane.now reads.old
        ≡ Some (Err fault, reads.new))) }
    ensures appended { AppendsReads lane.now reads.old reads.new }
    ensures placed { IfOk result (λ taken.
        ArePlaced first (length params.now) taken.places.items (params_of taken.params)) }
{
    let mut taken = TakenParams::none(alloc);
    for (i, param) in params.iter().enumerate() {
        let number = first + i as u8;
        taken.add(take_param(alloc, lane, registry, number, param, reads)?);
    }
    Ok(taken)
}

/// Copies the parameter of this number.
fn take_param(
    alloc: Global,
    lane: &Lane,
    registry: &Registry,
    number: u8,
    param: &MsgParam,
    reads: &mut Reads,
) -> Result<CopiedParam, CopyFault>
    ensures ok { IfOk result (λ copy.
        over_lane (copied_param registry.now.buffers number param.now) lane.now reads.old
        ≡ Some (Ok copy, reads.new)) }
    ensures faulty { IfErr result (λ fault. UnlessMemory fault
        (over_lane (copied_param registry.now.buffers number param.now) lane.now reads.old
        ≡ Some (Err fault, reads.new))) }
    ensures appended { AppendsReads lane.now reads.old reads.new }
    ensures placed { IfOk result (λ copy. IsPlaced number copy.place copy.param) }
{
    match param.kind {
        ParamKind::Empty => Ok(without_memory(alloc, number, GpParam::Empty)),
        ParamKind::ValueIn => Ok(without_memory(alloc, number, value_in(Way::In, param))),
        ParamKind::ValueOut => Ok(without_memory(alloc, number, value_out())),
        ParamKind::ValueInout => Ok(without_memory(alloc, number, value_in(Way::Inout, param))),
        ParamKind::RmemIn => take_rmem(alloc, lane, registry, number, Way::In, param, reads),
        ParamKind::RmemOut => take_rmem(alloc, lane, registry, number, Way::Out, param, reads),
        ParamKind::RmemInout => take_rmem(alloc, lane, registry, number, Way::Inout, param, reads),
        ParamKind::TmemIn => take_tmem(alloc, lane, number, Way::In, param, reads),
        ParamKind::TmemOut => take_tmem(alloc, lane, number, Way::Out, param, reads),
        ParamKind::TmemInout => take_tmem(alloc, lane, number, Way::Inout, param, reads),
    }
}

fn without_memory(alloc: Global, number: u8, param: GpParam) -> CopiedParam
    ensures { result ≡ record {
      param = param;
      place = record { number = number; pieces = [] };
      cookie = None;
    } }
{
    CopiedParam {
        param,
        place: Place {
            number,
            pieces: Sequence::of(Vec::new(alloc)),
        },
        cookie: None,
    }
}

/// A value that is read: the low 32 bits of each number.
fn value_in(way: Way, param: &MsgParam) -> GpParam
    ensures { result ≡ value_in way param.now }
{
    GpParam::Value {
        way,
        a: (param.p & 0xffff_ffff) as u32,
        b: (param.q & 0xffff_ffff) as u32,
    }
}

fn value_out() -> GpParam
    ensures { result ≡ GpParam.Value Way.Out 0 0 }
{
    GpParam::Value {
        way: Way::Out,
        a: 0,
        b: 0,
    }
}

/// Copies a part of a registered buffer.
fn take_rmem(
    alloc: Global,
    lane: &Lane,
    registry: &Registry,
    number: u8,
    way: Way,
    param: &MsgParam,
    reads: &mut Reads,
) -> Result<CopiedParam, CopyFault>
    ensures ok { IfOk result (λ copy. over_lane
        (memory number way (Some param.now.s) (rmem_pieces registry.now.buffers number param.now))
        lane.now reads.old ≡ Some (Ok copy, reads.new)) }
    ensures faulty { IfErr result (λ fault. UnlessMemory fault (over_lane
        (memory number way (Some param.now.s) (rmem_pieces registry.now.buffers number param.now))
        lane.now reads.old ≡ Some (Err fault, reads.new))) }
    ensures appended { AppendsReads lane.now reads.old reads.new }
    ensures placed { IfOk result (λ copy. IsPlaced number copy.place copy.param) }
{
    let pieces = rmem_pieces(alloc, registry, number, param)?;
    let bytes = take_bytes_of(alloc, lane, way, pieces.as_slice(), reads)?;
    Ok(memref(number, way, Some(param.s), pieces, bytes))
}

/// Copies memory that is named by its address or by page lists.
fn take_tmem(
    alloc: Global,
    lane: &Lane,
    number: u8,
    way: Way,
    param: &MsgParam,
    reads: &mut Reads,
) -> Result<CopiedParam, CopyFault>
    ensures ok { IfOk result (λ copy. over_lane
        (memory number way None (tmem_pieces number param.now)) lane.now reads.old
        ≡ Some (Ok copy, reads.new)) }
    ensures faulty { IfErr result (λ fault. UnlessMemory fault (over_lane
        (memory number way None (tmem_pieces number param.now)) lane.now reads.old
        ≡ Some (Err fault, reads.new))) }
    ensures appended { AppendsReads lane.now reads.old reads.new }
    ensures placed { IfOk result (λ copy. IsPlaced number copy.place copy.param) }
{
    let pieces = tmem_pieces(alloc, lane, number, param, reads)?;
    let bytes = take_bytes_of(alloc, lane, way, pieces.as_slice(), reads)?;
    Ok(memref(number, way, None, pieces, bytes))
}

/// The parameter of these bytes, which lie in these pieces.
fn memref(
    number: u8,
    way: Way,
    cookie: Option<u64>,
    pieces: Vec<Piece>,
    bytes: Vec<u8>,
) -> CopiedParam
    requires in_ram { AllByRecursion IsPieceOfRam pieces.items }
    requires len { length bytes.items ≡ bytes_in pieces.items }
    requires few { bytes_in pieces.items ≤ 65536 }
    ensures value { result ≡ record {
      param = GpParam.Memref way bytes.items (length bytes.items);
      place = record { number = number; pieces = pieces.items };
      cookie = cookie;
    } }
    ensures placed { IsPlaced number result.place result.param }
{
    let size = bytes.len() as u32;
    CopiedParam {
        param: GpParam::Memref {
            way,
            buf: Buf::of(bytes),
            size,
        },
        place: Place {
            number,
            pieces: Sequence::of(pieces),
        },
        cookie,
    }
}
