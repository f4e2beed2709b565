//! The operation of a call, by the parameters of its line.
ghost use Rattle.std.specs.Prelude.{◌≡◌, ◌≤◌, All, IfOk, IsTrue, length};
ghost use Rattle.client_play.specs.Calls.{operation_of, param_at, param_of};
ghost use Rattle.client_text.specs.Forms.{has_length};
ghost use Rattle.teec.specs.Operation.{FitsItsPlace, IsSendable, Sends};

use base::NoMemory;
use client_text::ScriptParam;
use std::alloc::Global;
use ta_params::{Buf, CopiedParams, GpParam, Way};
use teec::Operation;

fn value(way: Way, a: u32, b: u32) -> GpParam
    ensures { result ≡ GpParam.Value way a b }
{
    GpParam::Value { way, a, b }
}

/// Bytes that a call goes with.
fn memory(alloc: Global, way: Way, bytes: &[u8]) -> Result<GpParam, NoMemory>
    requires { length bytes.now ≤ 65536 }
    ensures { IfOk result (λ param. param ≡ GpParam.Memref way bytes.now (length bytes.now)) }
{
    Ok(GpParam::Memref {
        way,
        buf: Buf::of(bytes.to_vec(alloc)?),
        size: bytes.len() as u32,
    })
}

/// Room for so many bytes, which are zeros at first.
fn room(alloc: Global, len: u32) -> Result<GpParam, NoMemory>
    ensures { IfOk result (λ param. param ≡ param_of (ScriptParam.MemoryOut len)) }
{
    Ok(GpParam::Memref {
        way: Way::Out,
        buf: Buf::of(vec![in alloc; 0; len as usize]?),
        size: len,
    })
}

/// A parameter of the client.
fn param_of(alloc: Global, param: &ScriptParam) -> Result<GpParam, NoMemory>
    requires { IsTrue (has_length param.now) }
    ensures param { IfOk result (λ made. made ≡ param_of param.now) }
{
    match param {
        ScriptParam::Empty => Ok(GpParam::Empty),
        ScriptParam::ValueIn { a, b } => Ok(value(Way::In, *a, *b)),
        ScriptParam::ValueOut => Ok(value(Way::Out, 0, 0)),
        ScriptParam::ValueInout { a, b } => Ok(value(Way::Inout, *a, *b)),
        ScriptParam::MemoryIn { bytes } => memory(alloc, Way::In, bytes.as_slice()),
        ScriptParam::MemoryOut { len } => room(alloc, *len),
        ScriptParam::MemoryInout { bytes } => memory(alloc, Way::Inout, bytes.as_slice()),
    }
}

/// The parameter of a number; those behind the last one are empty.
fn param_at(alloc: Global, params: &[ScriptParam], number: usize) -> Result<GpParam, NoMemory>
    requires { All (λ param. IsTrue (has_length param)) params.now }
    ensures { IfOk result (λ made. made ≡ param_at params.now number) }
{
    match params.get(number) {
        Some(param) => param_of(alloc, param),
        None => Ok(GpParam::Empty),
    }
}

/// The operation of a call with these parameters, which is cancelled so.
pub(crate) fn operation_of(
    alloc: Global,
    params: &[ScriptParam],
    cancel_after: Option<u32>,
) -> Result<Operation, NoMemory>
    requires few { length params.now ≤ 4 }
    requires lengths { All (λ param. IsTrue (has_length param)) params.now }
    ensures operation { IfOk result (λ op. op ≡ operation_of params.now cancel_after) }
    ensures sendable { IfOk result IsSendable }
    ensures sends { IfOk result (λ op. Sends op (length params.now)) }
{
    Ok(Operation {
        params: CopiedParams {
            p0: param_at(alloc, params, 0)?,
            p1: param_at(alloc, params, 1)?,
            p2: param_at(alloc, params, 2)?,
            p3: param_at(alloc, params, 3)?,
        },
        cancel_after,
    })
}
