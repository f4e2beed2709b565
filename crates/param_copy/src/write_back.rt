//! What a call writes back of its parameters.

ghost use Rattle.std.specs.Prelude.{◌≡◌, ◌+◌, ◌<◌, ◌≤◌, ◌∷◌, ◌++◌, [], slice_get, Some};
ghost use Rattle.std.specs.List.{AllByRecursion};
ghost use Rattle.ns_ram.specs.Lane.{IsInRam};
ghost use Rattle.ns_ram.specs.Writes.{lane_after};
ghost use Rattle.shm_registry.specs.Pieces.{IsPieceOfRam};
ghost use Rattle.param_copy.specs.Places.{IsWritable};
ghost use Rattle.param_copy.specs.WritingBack.{bytes_to, memory_to, param_writes, params_of, word_to, writes_back};

use crate::copied::{Place, Places};
use msg_args::{HEAD_LEN, PARAM_LEN};
use ns_ram::Lane;
use shm_registry::Piece;
use ta_params::{CopiedParams, GpParam, Way};

/// Writes what a call has put into its parameters back to the argument at `arg` and to their places, one
/// parameter after the other: the numbers of a value; the size of memory, and as many of its bytes, where it
/// has so many. Inputs aren't written. A later write stands over an earlier one. Takes no memory.
pub fn copy_out(lane: &mut Lane, arg: u64, places: &Places, params: &CopiedParams)
    requires { AllByRecursion (IsWritable arg) places.now.items }
    ensures { lane.new ≡ lane_after lane.old (writes_back arg places.now.items params.now) }
{
    for (i, place) in places.as_slice().iter().enumerate() {
        put_param(lane, arg, place, param_at(params, i));
    }
}

/// The parameter of this index.
fn param_at(params: &CopiedParams, index: usize) -> &GpParam
    requires { index < 4 }
    ensures { slice_get (params_of params.now) index ≡ Some result.now }
{
    match index {
        0 => &params.p0,
        1 => &params.p1,
        2 => &params.p2,
        _ => &params.p3,
    }
}

fn put_param(lane: &mut Lane, arg: u64, place: &Place, param: &GpParam)
    requires { IsWritable arg place.now }
    ensures { lane.new ≡ lane_after lane.old (param_writes arg place.now param.now) }
{
    let addr = arg + HEAD_LEN + PARAM_LEN * u64::from(place.number);
    let (p, q) = (addr + 8, addr + 16);
    match param {
        GpParam::Value {
            way: Way::Out | Way::Inout,
            a,
            b,
        } => {
            put_word(lane, p, *a);
            put_word(lane, q, *b);
        }
        GpParam::Memref {
            way: Way::Out | Way::Inout,
            buf,
            size,
        } => put_memory(lane, q, place.pieces.as_slice(), buf.bytes(), *size),
        _ => {}
    }
}

/// Writes a size to its place, and as many bytes to the pieces, where there are so many.
fn put_memory(lane: &mut Lane, size_place: u64, pieces: &[Piece], bytes: &[u8], size: u32)
    requires size { IsInRam size_place 8 }
    requires pieces { AllByRecursion IsPieceOfRam pieces.now }
    ensures { lane.new ≡ lane_after lane.old (memory_to size_place pieces.now bytes.now size) }
{
    put_word(lane, size_place, size);
    if size as usize <= bytes.len() {
        put_bytes(lane, pieces, &bytes[..size as usize]);
    }
}

/// Writes a number of eight bytes.
fn put_word(lane: &mut Lane, addr: u64, number: u32)
    requires { IsInRam addr 8 }
    ensures { lane.new ≡ lane_after lane.old (word_to addr number ∷ []) }
{
    lane.write(addr, &u64::from(number).to_le_bytes());
}

/// Writes bytes to pieces, the first piece first.
fn put_bytes(lane: &mut Lane, pieces: &[Piece], bytes: &[u8])
    requires { AllByRecursion IsPieceOfRam pieces.now }
    ensures { lane.new ≡ lane_after lane.old (bytes_to pieces.now bytes.now) }
{
    let mut left = bytes;
    for piece in pieces {
        if left.is_empty() {
            break;
        }
        let (part, others) = left.split_at(left.len().min(piece.len as usize));
        lane.write(piece.addr, part);
        left = others;
    }
}
