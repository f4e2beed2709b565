//! What is told of the parameters of a call at its end, in memory that was taken before.
ghost use Rattle.std.specs.Prelude.{◌≡◌, ◌≤◌, ℕ, [], IfOk, length, vec_capacity};
ghost use Rattle.own_model.specs.Own.{ended};
ghost use Rattle.own_model.specs.Parameters.{bytes_told, output_of, outputs_with};
ghost use Rattle.rpc_cont.specs.Conts.{kept_params};
ghost use Rattle.solo.specs.Rooms.{HoldsBytes, IsOutputRoom};
ghost use Rattle.solo.specs.Short.{AreShort};
ghost use Rattle.ta_step.specs.Parameters.{buffer};

use crate::lengths::longest_if_some;
use crate::room::OutputRoom;
use base::NoMemory;
use own_model::OwnReply;
use std::alloc::Global;
use ta_params::codes::TEE_ORIGIN_TRUSTED_APP;
use ta_params::{Buf, CallResult, CopiedParams, GpParam, Way};

/// The bytes of a memory parameter that are written back: as many as its size says, where it has so many.
fn bytes_told(mut room: Vec<u8>, buf: &Buf, size: u32) -> Buf
    requires empty { room.items ≡ [] }
    ensures { length buf.now ≤ vec_capacity room → result ≡ bytes_told buf.now size }
{
    if let Some(bytes) = buf.bytes().get(..size as usize) {
        let _ = room.extend_from_slice(bytes);
    }
    Buf::of(room)
}

/// A parameter as it is told: nothing of an input.
fn output_of(room: Vec<u8>, param: &GpParam) -> GpParam
    requires empty { room.items ≡ [] }
    ensures { length (buffer param.now) ≤ vec_capacity room → result ≡ output_of param.now }
{
    match param {
        GpParam::Empty
        | GpParam::Value { way: Way::In, .. }
        | GpParam::Memref { way: Way::In, .. } => GpParam::Empty,
        GpParam::Value { way, a, b } => GpParam::Value {
            way: *way,
            a: *a,
            b: *b,
        },
        GpParam::Memref { way, buf, size } => GpParam::Memref {
            way: *way,
            buf: bytes_told(room, buf, *size),
            size: *size,
        },
    }
}

/// The four, which are told only where the application returned the result.
fn outputs_with(
    room: OutputRoom,
    outcome: CallResult,
    params: &Option<CopiedParams>,
) -> CopiedParams
    requires { IsOutputRoom room }
    ensures { (longest : ℕ) → HoldsBytes longest room → AreShort longest (kept_params params.now)
        → result ≡ outputs_with outcome (kept_params params.now) }
{
    match params {
        Some(params) if outcome.origin == TEE_ORIGIN_TRUSTED_APP => CopiedParams {
            p0: output_of(room.p0, &params.p0),
            p1: output_of(room.p1, &params.p1),
            p2: output_of(room.p2, &params.p2),
            p3: output_of(room.p3, &params.p3),
        },
        Some(_) | None => CopiedParams::none(),
    }
}

/// A call has ended with this result, and leaves these parameters.
pub fn ended(room: OutputRoom, outcome: CallResult, params: &Option<CopiedParams>) -> OwnReply
    requires { IsOutputRoom room }
    ensures { (longest : ℕ) → HoldsBytes longest room → AreShort longest (kept_params params.now)
        → result ≡ ended outcome (kept_params params.now) }
{
    OwnReply::Ended {
        result: outcome.result,
        origin: outcome.origin,
        outputs: outputs_with(room, outcome, params),
    }
}

/// What is told of the parameters that a call leaves with this result, copied: nothing of an input, of memory as many
/// bytes as its size says where it has so many, and nothing at all where no application returned the result.
pub fn copied_outputs(
    alloc: Global,
    outcome: CallResult,
    params: &Option<CopiedParams>,
) -> Result<CopiedParams, NoMemory>
    ensures { IfOk result (λ told. told ≡ outputs_with outcome (kept_params params.now)) }
{
    let room = OutputRoom::new(alloc, longest_if_some(params))?;
    Ok(outputs_with(room, outcome, params))
}
