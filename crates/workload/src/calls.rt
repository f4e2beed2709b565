//! The items of one number.

ghost use Rattle.std.specs.Prelude.{◌≡◌, ◌++◌, ◌∷◌, [], ◌+◌, ◌<◌, ◌^◌, IfOk, OnOk};
ghost use Rattle.workload.specs.Work.{argument_call, invoke_argument, items_of, open_argument};

use crate::message::{Head, put_head, put_param};
use base::{NoMemory, Sequence};
use std::alloc::Global;
use trace_text::{Item, Reg};

/// Where the argument of each call stands.
const ARGUMENT_AT: u64 = 0x4000_0000;

/// The bytes of an argument with one parameter, and with two: a head and a parameter have 32 each.
const ONE_PARAMETER: usize = 64;

const TWO_PARAMETERS: usize = 96;

/// The argument that opens a session.
#[tactic(auto, unfolding(crate::specs::Work::open_argument))]
fn open_argument(alloc: Global) -> Result<Vec<u8>, NoMemory>
    ensures { IfOk result (λ v. v.items ≡ open_argument) }
{
    let mut bytes = Vec::with_capacity(alloc, TWO_PARAMETERS)?;
    let head = Head {
        cmd: 0,
        func: 0,
        session: 0,
        cancel_id: 0,
        count: 2,
    };
    put_head(&mut bytes, head)?;
    put_param(
        &mut bytes,
        0x101,
        0x3333_2222_1111_1111,
        0x5555_5555_5555_4444,
        0,
    )?;
    put_param(&mut bytes, 0x101, 0, 0, 0)?;
    Ok(bytes)
}

/// The argument that calls a session.
#[tactic(auto, unfolding(crate::specs::Work::invoke_argument))]
fn invoke_argument(alloc: Global, session: u32) -> Result<Vec<u8>, NoMemory>
    ensures { IfOk result (λ v. v.items ≡ invoke_argument session) }
{
    let mut bytes = Vec::with_capacity(alloc, ONE_PARAMETER)?;
    let head = Head {
        cmd: 1,
        func: 0,
        session,
        cancel_id: 0,
        count: 1,
    };
    put_head(&mut bytes, head)?;
    put_param(&mut bytes, 3, 5, 7, 0)?;
    Ok(bytes)
}

/// Registers of which the first is this and only those named are not 0.
fn registers(a0: u32, a2: u32, a3: u32) -> [Reg; 8]
    ensures { result ≡ Reg.Num a0 ∷ Reg.Num 0 ∷ Reg.Num a2 ∷ Reg.Num a3 ∷ Reg.Num 0 ∷ Reg.Num 0 ∷ Reg.Num 0 ∷ Reg.Num 0 ∷ [] }
{
    let zero = Reg::Num(0);
    [
        Reg::Num(a0),
        zero,
        Reg::Num(a2),
        Reg::Num(a3),
        zero,
        zero,
        zero,
        zero,
    ]
}

/// Appends a write of an argument, and the call that has it.
fn push_argument_call(
    items: &mut Vec<Item>,
    cpu: u8,
    steps: u32,
    argument: Vec<u8>,
) -> Result<(), NoMemory>
    ensures { OnOk result (items.new.items ≡ items.old.items ++ argument_call cpu steps argument.items) }
{
    items.push(Item::Write {
        cpu,
        addr: ARGUMENT_AT,
        bytes: Sequence::of(argument),
    })?;
    items.push(Item::Smc {
        cpu,
        steps,
        regs: registers(0x3200_0004, 0x4000_0000, 0),
    })?;
    Ok(())
}

/// Appends the items that a number chooses.
#[tactic(auto, unfolding(crate::specs::Work::items_of))]
pub fn push_items(alloc: Global, items: &mut Vec<Item>, x: u64) -> Result<(), NoMemory>
    ensures { OnOk result (items.new.items ≡ items.old.items ++ items_of x) }
{
    let cpu = (x / (1 << 32) % 4) as u8;
    let steps = 1 + (x / (1 << 40) % 8) as u32;
    let small = (x / (1 << 56) % 64) as u32;
    match x / (1 << 48) % 4 {
        0 => items.push(Item::Smc {
            cpu,
            steps,
            regs: registers(0xbf00_ff01, 0, 0),
        })?,
        1 => push_argument_call(items, cpu, steps, open_argument(alloc)?)?,
        2 => push_argument_call(items, cpu, steps, invoke_argument(alloc, small + 1)?)?,
        _ => items.push(Item::Smc {
            cpu,
            steps,
            regs: registers(0x3200_0003, 0, small % 4),
        })?,
    }
    Ok(())
}
