//! How long the buffers of parameters are.
ghost use Rattle.std.specs.Prelude.{◌≡◌, ◌≤◌, length};
ghost use Rattle.rpc_cont.specs.Conts.{kept_params};
ghost use Rattle.solo.specs.Short.{AreShort, IsShortEvent, IsShortInput};
ghost use Rattle.ta_step.specs.Parameters.{buffer};

use own_model::{OwnEvent, OwnInput};
use ta_params::{CopiedParams, GpParam};

/// How many bytes the buffer of a parameter has, if it has one.
fn buffer_len(param: &GpParam) -> usize
    ensures { result ≡ length (buffer param.now) }
{
    match param {
        GpParam::Memref { buf, .. } => buf.bytes().len(),
        GpParam::Empty | GpParam::Value { .. } => 0,
    }
}

/// How many the longest buffer has, or that of four parameters.
pub fn longest_with(longest: usize, params: &CopiedParams) -> usize
    ensures least { longest ≤ result }
    ensures short { AreShort result params.now }
{
    longest
        .max(buffer_len(&params.p0))
        .max(buffer_len(&params.p1))
        .max(buffer_len(&params.p2))
        .max(buffer_len(&params.p3))
}

/// How many the longest buffer of a call's parameters has, where there are any.
pub(crate) fn longest_if_some(params: &Option<CopiedParams>) -> usize
    ensures { AreShort result (kept_params params.now) }
{
    match params {
        Some(params) => longest_with(0, params),
        None => 0,
    }
}

/// How many the longest buffer has, or that of an invoke.
pub fn longest_with_input(longest: usize, input: &OwnInput) -> usize
    ensures least { longest ≤ result }
    ensures short { IsShortInput result input.now }
{
    match input {
        OwnInput::Copied(params) => longest_with(longest, params),
        OwnInput::Faulty | OwnInput::Unread => longest,
    }
}

/// How many the longest buffer has, or that of an event.
pub(crate) fn longest_with_event(longest: usize, event: &OwnEvent) -> usize
    ensures least { longest ≤ result }
    ensures short { IsShortEvent result event.now }
{
    match event {
        OwnEvent::Open { params, .. } => longest_with(longest, params),
        OwnEvent::Invoke { input, .. } => longest_with_input(longest, input),
        OwnEvent::Close { .. }
        | OwnEvent::Cancel
        | OwnEvent::Seen { .. }
        | OwnEvent::Back { .. }
        | OwnEvent::Out { .. }
        | OwnEvent::Limited => longest,
    }
}
