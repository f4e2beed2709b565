//! The parameters of an operation: as they are sent, to their memory, and back.

ghost use Rattle.std.specs.Prelude.{◌≡◌, ◌+◌, ◌<◌, ◌≤◌};
ghost use Rattle.ns_ram.specs.Lane.{IsInRam};
ghost use Rattle.ns_ram.specs.Writes.{lane_after};
ghost use Rattle.teec.specs.Operation.{FitsItsPlace, IsSendable, buffer_writes, low_word, memory_kind, memory_writes, operation_back, param_back, param_sent, value_kind};

use crate::operation::Operation;
use crate::places::{ARGUMENT_AT, memory_at};
use msg_args::{MsgParam, ParamKind, p_at, q_at};
use smc_port::World;
use ta_params::{GpParam, Way};

/// The parameter of a number, as it is sent.
pub(crate) fn param_sent(number: u64, param: &GpParam) -> MsgParam
    requires number { number < 4 }
    requires fits { FitsItsPlace param.now }
    ensures { result ≡ param_sent number param.now }
{
    let (kind, p, q) = match param {
        GpParam::Empty => (ParamKind::Empty, 0, 0),
        GpParam::Value { way, a, b } => (value_kind(*way), u64::from(*a), u64::from(*b)),
        GpParam::Memref { way, buf, .. } => {
            (
                memory_kind(*way),
                memory_at(number),
                buf.bytes().len() as u64,
            )
        }
    };
    MsgParam {
        kind,
        p,
        q,
        ..MsgParam::default()
    }
}

fn value_kind(way: Way) -> ParamKind
    ensures { result ≡ value_kind way }
{
    match way {
        Way::In => ParamKind::ValueIn,
        Way::Out => ParamKind::ValueOut,
        Way::Inout => ParamKind::ValueInout,
    }
}

fn memory_kind(way: Way) -> ParamKind
    ensures { result ≡ memory_kind way }
{
    match way {
        Way::In => ParamKind::TmemIn,
        Way::Out => ParamKind::TmemOut,
        Way::Inout => ParamKind::TmemInout,
    }
}

/// Writes the bytes of an operation's buffers to their places, outputs too.
pub(crate) fn put_buffers<W: World>(world: &mut W, op: &Operation)
    requires { IsSendable op.now }
    ensures ram { W.ram world.new ≡ lane_after (W.ram world.old) (buffer_writes op.now) }
    ensures made { W.made world.new ≡ W.made world.old }
{
    put_buffer(world, 0, &op.params.p0);
    put_buffer(world, 1, &op.params.p1);
    put_buffer(world, 2, &op.params.p2);
    put_buffer(world, 3, &op.params.p3);
}

fn put_buffer<W: World>(world: &mut W, number: u64, param: &GpParam)
    requires number { number < 4 }
    requires fits { FitsItsPlace param.now }
    ensures ram { W.ram world.new ≡ lane_after (W.ram world.old) (memory_writes number param.now) }
    ensures made { W.made world.new ≡ W.made world.old }
{
    if let GpParam::Memref { buf, .. } = param {
        world.poke(memory_at(number), buf.bytes());
    }
}

/// Takes the outputs out of RAM. So many parameters of the argument stand before the operation's.
pub(crate) fn take_outputs<W: World>(world: &W, before: u64, op: &mut Operation)
    requires before { before ≤ 2 }
    requires fits { IsSendable op.old }
    ensures { op.new ≡ operation_back (W.ram world.now) before op.old }
{
    take_output(world, before, 0, &mut op.params.p0);
    take_output(world, before + 1, 1, &mut op.params.p1);
    take_output(world, before + 2, 2, &mut op.params.p2);
    take_output(world, before + 3, 3, &mut op.params.p3);
}

/// Takes an output: of a value its numbers, and of memory its size and the bytes of its whole buffer. The argument has it
/// at one number, and the operation at another.
fn take_output<W: World>(world: &W, place: u64, number: u64, param: &mut GpParam)
    requires place { place < 6 }
    requires number { number < 4 }
    requires fits { FitsItsPlace param.old }
    ensures { param.new ≡ param_back (W.ram world.now) place number param.old }
{
    let (p, q) = (p_at(ARGUMENT_AT, place), q_at(ARGUMENT_AT, place));
    match param {
        GpParam::Value {
            way: Way::Out | Way::Inout,
            a,
            b,
        } => {
            *a = low_word(world, p);
            *b = low_word(world, q);
        }
        GpParam::Memref {
            way: Way::Out | Way::Inout,
            buf,
            size,
        } => {
            *size = low_word(world, q);
            world.peek(memory_at(number), buf.bytes_mut());
        }
        _ => {}
    }
}

/// The low 32 bits of the number at an address.
pub(crate) fn low_word<W: World>(world: &W, addr: u64) -> u32
    requires { IsInRam addr 4 }
    ensures { result ≡ low_word (W.ram world.now) addr }
{
    let mut bytes = [0; 4];
    world.peek(addr, &mut bytes);
    u32::from_le_bytes(bytes)
}
