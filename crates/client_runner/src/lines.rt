//! The line of a call. At `Err` there was no memory, and a part of the line may stand at the text's end.
ghost use Rattle.std.specs.Prelude.{◌≡◌, [], ◌∷◌, ◌++◌, OnOk};
ghost use Rattle.client_play.specs.Printed.{call_text, digits, memory_text, outputs_text, param_text, value_text};
ghost use Rattle.play_model.specs.Line.{register_text};

use answer_lines::push_numbered;
use client_text::ScriptCall;
use std::alloc::{AllocError, Global};
use ta_params::codes::TEE_ORIGIN_TRUSTED_APP;
use ta_params::{CallResult, CopiedParams, GpParam, Way};

/// Appends a number in eight lower-case hexadecimal digits.
fn push_digits(alloc: Global, text: &mut Vec<u8>, number: u32) -> Result<(), AllocError>
    ensures { OnOk result (text.new.items ≡ text.old.items ++ digits number) }
{
    let bytes = number.to_be_bytes();
    text.extend_from_slice(hex::encode(alloc, bytes.as_slice())?.as_bytes())
}

/// Appends a space and a number.
fn push_register(alloc: Global, text: &mut Vec<u8>, number: u32) -> Result<(), AllocError>
    ensures { OnOk result (text.new.items ≡ text.old.items ++ register_text number) }
{
    text.push(b' ')?;
    push_digits(alloc, text, number)
}

/// Appends a word and a name.
fn push_named(text: &mut Vec<u8>, word: &[u8], name: &[u8]) -> Result<(), AllocError>
    ensures { OnOk result (text.new.items ≡ text.old.items ++ word.now ++ name.now) }
{
    text.extend_from_slice(word)?;
    text.extend_from_slice(name)
}

/// Appends which call it is.
fn push_call(text: &mut Vec<u8>, call: &ScriptCall) -> Result<(), AllocError>
    ensures { OnOk result (text.new.items ≡ text.old.items ++ call_text call.now) }
{
    match call {
        ScriptCall::Open { name, .. } => push_named(text, b"open ", name.as_slice()),
        ScriptCall::Invoke { name, .. } => push_named(text, b"invoke ", name.as_slice()),
        ScriptCall::Close { name } => push_named(text, b"close ", name.as_slice()),
    }
}

/// Appends two numbers that came back.
fn push_value(alloc: Global, text: &mut Vec<u8>, a: u32, b: u32) -> Result<(), AllocError>
    ensures { OnOk result (text.new.items ≡ text.old.items ++ value_text a b) }
{
    text.extend_from_slice(b" v:")?;
    push_digits(alloc, text, a)?;
    text.push(b':')?;
    push_digits(alloc, text, b)
}

/// Appends a size and as many bytes, where the buffer has so many.
fn push_memory(alloc: Global, text: &mut Vec<u8>, buf: &[u8], size: u32) -> Result<(), AllocError>
    ensures { OnOk result (text.new.items ≡ text.old.items ++ memory_text buf.now size) }
{
    push_numbered(text, b" m:", u64::from(size))?;
    text.push(b':')?;
    let size = size as usize;
    if size > buf.len() {
        return Ok(());
    }
    text.extend_from_slice(hex::encode(alloc, &buf[..size])?.as_bytes())
}

/// Appends a parameter, if it is one that comes back.
fn push_param(alloc: Global, text: &mut Vec<u8>, param: &GpParam) -> Result<(), AllocError>
    ensures { OnOk result (text.new.items ≡ text.old.items ++ param_text param.now) }
{
    match param {
        GpParam::Empty
        | GpParam::Value { way: Way::In, .. }
        | GpParam::Memref { way: Way::In, .. } => Ok(()),
        GpParam::Value { a, b, .. } => push_value(alloc, text, *a, *b),
        GpParam::Memref { buf, size, .. } => push_memory(alloc, text, buf.bytes(), *size),
    }
}

/// Appends the outputs, where the application returned the result.
fn push_outputs(
    alloc: Global,
    text: &mut Vec<u8>,
    told: &CallResult,
    params: &CopiedParams,
) -> Result<(), AllocError>
    ensures { OnOk result (text.new.items ≡ text.old.items ++ outputs_text told.now params.now) }
{
    if told.origin != TEE_ORIGIN_TRUSTED_APP {
        return Ok(());
    }
    push_param(alloc, text, &params.p0)?;
    push_param(alloc, text, &params.p1)?;
    push_param(alloc, text, &params.p2)?;
    push_param(alloc, text, &params.p3)
}

/// Appends the line of a call that has come to this, with its parameters as they came back.
pub(crate) fn push_line(
    alloc: Global,
    text: &mut Vec<u8>,
    call: &ScriptCall,
    told: &CallResult,
    params: &CopiedParams,
) -> Result<(), AllocError>
    ensures { OnOk result (text.new.items ≡ text.old.items ++ (call_text call.now ++ register_text told.now.result
        ++ register_text told.now.origin ++ outputs_text told.now params.now ++ 10 ∷ [])) }
{
    push_call(text, call)?;
    push_register(alloc, text, told.result)?;
    push_register(alloc, text, told.origin)?;
    push_outputs(alloc, text, told, params)?;
    text.push(b'\n')?;
    Ok(())
}
