//! What a call comes to, and how many SMCs it makes, by the answers of the port.

ghost use Rattle.std.specs.Prelude.{◌≤◌, IfOk};
ghost use Rattle.teec.specs.Operation.{IsSendable};

use crate::number;
use crate::turns::answering;
use anyhow::{Context, Result, bail};
use ns_ram::Lane;
use smc_port::{ListedPort, Turn};
use std::alloc::Global;
use ta_params::{CopiedParams, GpParam};
use teec::{Client, Operation, TeecFault};
use uuid::Uuid;

/// How often a client tries, and how many RPC returns it answers.
#[derive(Clone, Copy)]
struct Bounds {
    retries: u32,
    rounds: u32,
}

/// The bounds of two words, neither 0.
fn bounds_of(retries: &str, rounds: &str) -> Result<Bounds>
    ensures retries { IfOk result (λ bounds. 1 ≤ bounds.retries) }
    ensures rounds { IfOk result (λ bounds. 1 ≤ bounds.rounds) }
{
    let (retries, rounds) = (number(retries)?, number(rounds)?);
    if retries == 0 || rounds == 0 {
        bail!("a client tries once at least, and answers one return");
    }
    Ok(Bounds { retries, rounds })
}

/// What a port does that gives these answers.
fn turns_of(alloc: Global, answers: &[&str]) -> Result<Vec<Turn>> {
    let mut turns = Vec::new(alloc);
    for word in answers {
        let a0 = u32::from_str_radix(word, 16)
            .ok()
            .context("reading an answer")?;
        turns.push(answering(alloc, a0))?;
    }
    Ok(turns)
}

/// A client with these bounds over a port that gives these answers.
fn client_over(alloc: Global, answers: &[&str], bounds: &Bounds) -> Result<Client<ListedPort>>
    requires retries { 1 ≤ bounds.now.retries }
    requires rounds { 1 ≤ bounds.now.rounds }
{
    let turns = turns_of(alloc, answers)?;
    let port = ListedPort::new(alloc, Lane::new(alloc)?, turns);
    Ok(Client::new(alloc, port, bounds.retries, bounds.rounds))
}

fn without_parameters(cancel_after: Option<u32>) -> Operation
    ensures { IsSendable result }
{
    Operation {
        params: CopiedParams {
            p0: GpParam::Empty,
            p1: GpParam::Empty,
            p2: GpParam::Empty,
            p3: GpParam::Empty,
        },
        cancel_after,
    }
}

/// What an open comes to.
fn opened(
    alloc: Global,
    client: &mut Client<ListedPort>,
    cancel_after: Option<u32>,
) -> Result<(), TeecFault> {
    let mut op = without_parameters(cancel_after);
    match client.open_session(alloc, Uuid::from_bytes([1; 16]), &mut op) {
        Ok(_) => Ok(()),
        Err(fault) => Err(fault),
    }
}

/// After how many RPC returns a call is cancelled, if it is.
fn cancel_of(word: &str) -> Result<Option<u32>> {
    match word {
        "-" => Ok(None),
        _ => Ok(Some(number(word)?)),
    }
}

/// What a client's open comes to, and how many SMCs were made, before and after a close, as
/// `client TRIES ROUNDS CANCEL A0 ..` has it.
pub(crate) fn told(alloc: Global, row: &str) -> Result<String> {
    let words: Vec<&str> = row.split(' ').collect(alloc)?;
    let [retries, rounds, cancel, answers @ ..] = words.as_slice() else {
        bail!("a client has three words and its answers");
    };
    let bounds = bounds_of(retries, rounds)?;
    let cancel_after = cancel_of(cancel)?;
    let mut client = client_over(alloc, answers, &bounds)?;
    let ended = opened(alloc, &mut client, cancel_after);
    let made = client.world().made().len();
    let _closed = client.close(alloc, 1);
    let all = client.world().made().len();
    format!(in alloc; "{ended:?} by {made} SMCs, {all} with a close").context("telling an open")
}
