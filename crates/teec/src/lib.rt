//! The calls of a client of the TEE Client API, over any port: open a session, invoke it, close it, with an operation of
//! four parameters that is cancelled after so many RPC returns.
//!
//! A client answers what a core asks for meanwhile by a supplicant of its own, which keeps files in memory. It trusts
//! nothing that the port answers: each call ends after a bounded number of SMCs, whatever comes, and each fault names its
//! cause.
//!
//! | `specs/` | What it says |
//! |---|---|
//! | `Rounds` | which SMC a call makes next, by the answers that came |
//! | `Runs` | what the client writes to RAM before it |
//! | `Causes` | why a call ended as it did |
//! | `Places` | where things stand in RAM |
//! | `Operation` | how parameters are sent and what comes back |
//! | `Arguments` | which argument a call has |
//! | `Answers` | which registers are given and what is answered |
//! | `Results` | what a call came to |
//!
//! Only the supplicant takes memory.
//!
//! It touches RAM by the port that it is lent, and no thread.
//!
//! # What is proved
//!
//! - `open_session`, `invoke` and `close` of a client over any port make a run of SMCs (`HasRun`). Argument and buffers
//!   are written once, before the first; each SMC has the registers that follow from the answers before it. Before each
//!   resume the request that stands in the message is answered as the supplicant's definition says, and bytes that are
//!   no request by NOT_SUPPORTED.
//! - Each call ends, whatever the port answers, after at most one SMC for each try, one for each RPC return that the
//!   client answers, and one for a CANCEL (`most_smcs`).
//! - An Ok comes only where the last SMC was for the argument and was answered OK; result, session and outputs are then
//!   those that RAM holds (`told`, `outputs`).
//! - Each fault has its cause, and each cause its fault (`HasItsCause`): Retried and Rounds exactly after as many
//!   answers as the client bears, Strange exactly where the last answer is one, Spent exactly where the port had no
//!   room, unless the port or the supplicant wanted memory first.
//! - After a fault the operation is as it was; a client that has failed keeps its fault, answers it, and makes no SMC.
//!   After Retried it goes on, with its files as they were (`retried_stays`). At Spent all that is written before the
//!   refused SMC stands in RAM (`Stopped`); what RAM holds after another fault isn't said.
//! - Below these, `open_argument`, `invoke_argument`, `close_argument` and `cancel_argument` give the arguments of the
//!   definitions, of an operation whose buffers keep to the memory limit and whose sizes are those of its buffers.
//!   `put_buffers` makes the writes of `buffer_writes`, and no SMC. `Said::of` tells what an answer says, by its a0
//!   alone, and `call_with_arg` and `return_from_rpc` give the registers. `take_outputs`, `result_in` and `opened_in`
//!   give what RAM holds.
#![tactic(auto)]

mod answer;
mod argument;
mod client;
mod examples;
mod fault;
mod limits;
mod line;
mod operation;
mod outcome;
mod params;
mod places;
mod registers;

pub use answer::{RpcKind, RpcReturn, Said};
pub use client::Client;
pub use examples::worked_examples;
pub use fault::TeecFault;
pub use operation::Operation;
pub use outcome::Opened;
pub use smc_port::World;
