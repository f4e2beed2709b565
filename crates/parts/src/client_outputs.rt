//! What comes back in an operation.

ghost use Rattle.std.specs.Prelude.{IfOk};
ghost use Rattle.teec.specs.Operation.{IsSendable};

use crate::turns::{first, write};
use anyhow::{Context, Result, bail};
use base::Sequence;
use ns_ram::Lane;
use smc_port::{ListedPort, Turn};
use std::alloc::Global;
use ta_params::{Buf, CopiedParams, GpParam, Way};
use teec::{Client, Operation};

/// Writes the numbers 12 and 2^32 + 3 as those of the first parameter, 1 as the size of the second, and a byte of its memory.
fn writing(alloc: Global, a0: u32) -> Result<Turn> {
    let mut writes = Vec::new(alloc);
    writes.push(write(alloc, 0x4000_0028, &12u64.to_le_bytes())?)?;
    writes.push(write(alloc, 0x4000_0030, &0x1_0000_0003u64.to_le_bytes())?)?;
    writes.push(write(alloc, 0x4000_0050, &1u64.to_le_bytes())?)?;
    writes.push(write(alloc, 0x4011_0000, &[6])?)?;
    Ok(Turn {
        answer: first(a0),
        writes: Sequence::of(writes),
    })
}

/// A value that goes both ways, and an output of three bytes.
fn operation(alloc: Global) -> Result<Operation>
    ensures { IfOk result (λ op. IsSendable op) }
{
    let mut buf = Vec::new(alloc);
    buf.extend_from_slice(&[7, 8, 9])?;
    Ok(Operation {
        params: CopiedParams {
            p0: GpParam::Value {
                way: Way::Inout,
                a: 5,
                b: 7,
            },
            p1: GpParam::Memref {
                way: Way::Out,
                buf: Buf::of(buf),
                size: 3,
            },
            p2: GpParam::Empty,
            p3: GpParam::Empty,
        },
        cancel_after: None,
    })
}

/// The operation after an invoke that is answered this.
fn invoked(alloc: Global, a0: u32) -> Result<Operation> {
    let mut turns = Vec::new(alloc);
    turns.push(writing(alloc, a0)?)?;
    let port = ListedPort::new(alloc, Lane::new(alloc)?, turns);
    let mut client = Client::new(alloc, port, 1, 1);
    let mut op = operation(alloc)?;
    let _result = client.invoke(alloc, 1, 0, &mut op);
    Ok(op)
}

/// What comes back in an operation whose invoke is answered with this first register, as `outputs A0` has it: the numbers of
/// the value, the size of the buffer, and its bytes.
pub(crate) fn told(alloc: Global, row: &str) -> Result<String> {
    let a0 = u32::from_str_radix(row, 16)
        .ok()
        .context("reading an answer")?;
    let op = invoked(alloc, a0)?;
    let (GpParam::Value { a, b, .. }, GpParam::Memref { buf, size, .. }) = (
        &op.params.p0,
        &op.params.p1,
    ) else {
        bail!("the parameters have other types");
    };
    let digits = hex::encode(alloc, buf.bytes())?;
    format!(in alloc; "{a} {b} {size} {digits}").context("telling outputs")
}
