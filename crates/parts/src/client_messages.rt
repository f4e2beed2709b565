//! What a client answers to the requests that a port writes into its message buffer.

use crate::bytes_of;
use crate::turns::{OK, answering, write};
use anyhow::{Context, Result, bail};
use base::Sequence;
use ns_ram::Lane;
use smc_abi::Regs;
use smc_port::{ListedPort, Turn, World};
use std::alloc::Global;
use teec::Client;

/// An RPC return that asks for a command.
const COMMAND: u32 = 0xffff_0005;

/// The bytes of a message.
const MESSAGE_BYTES: usize = 128;

/// Writes this message, and asks for what stands in the buffer of this cookie. Behind the message stands the name of a file.
fn asking(alloc: Global, message: &[u8; MESSAGE_BYTES], cookie: u32) -> Result<Turn> {
    let mut writes = Vec::new(alloc);
    writes.push(write(alloc, 0x4001_0000, message)?)?;
    writes.push(write(alloc, 0x4001_0200, b"a")?)?;
    Ok(Turn {
        answer: Regs {
            a: [COMMAND, 0, cookie, 7, 0, 0, 0, 0],
        },
        writes: Sequence::of(writes),
    })
}

/// The result in the message, after a close whose first answer asks for what stands in the buffer of this cookie.
fn result_of(alloc: Global, message: &[u8; MESSAGE_BYTES], cookie: u32) -> Result<[u8; 4]> {
    let mut turns = Vec::new(alloc);
    turns.push(asking(alloc, message, cookie)?)?;
    turns.push(answering(alloc, OK))?;
    let port = ListedPort::new(alloc, Lane::new(alloc)?, turns);
    let mut client = Client::new(alloc, port, 1, 1);
    let _closed = client.close(alloc, 1);
    let mut ret = [0; 4];
    client.world().peek(0x4001_0014, &mut ret);
    Ok(ret)
}

/// The bytes of a message, zeros behind those that are given.
fn message_of(alloc: Global, digits: &str) -> Result<[u8; MESSAGE_BYTES]> {
    let bytes = bytes_of(alloc, digits)?;
    if bytes.len() > MESSAGE_BYTES {
        bail!("a message is too long");
    }
    let mut message = [0; MESSAGE_BYTES];
    for (to, from) in message.iter_mut().zip(bytes.as_slice()) {
        *to = *from;
    }
    Ok(message)
}

/// The result in a message, as `message COOKIE DIGITS` has it.
pub(crate) fn told(alloc: Global, row: &str) -> Result<String> {
    let (cookie, digits) = row.split_once(' ').context("reading a message")?;
    let message = message_of(alloc, digits)?;
    let ret = result_of(alloc, &message, crate::number(cookie)?)?;
    hex::encode(alloc, &ret).context("telling a result")
}
