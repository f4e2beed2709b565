//! The registers of a secure monitor call: which call they name, and how an answer stands in them.
//!
//! A processor of the normal world calls the core with eight registers of 32 bits, a0 to a7, and is
//! answered in the same eight. The function ids, return codes and capability bits are those of
//! `optee_smc.h`; a constant's comment has its name there.
//!
//! It touches no RAM, no port and no thread.
//!
//! # What is proved
//!
//! `decode_call` is the table, and Unknown comes exactly where the id stands in no row; `encode_answer` and
//! `fast_answer` are the tables of answers.
#![tactic(auto)]

mod answer;
mod call;
mod capabilities;
mod examples;
mod fast;
mod regs;

pub use answer::{
    Answer, EBADADDR, EBADCMD, ENOTAVAIL, ERESUME, ETHREAD_LIMIT, OK, RPC_ALLOC, RPC_CMD, RPC_FREE,
    RPC_INTERRUPT, UNKNOWN_FUNCTION, encode_answer,
};
pub use call::{
    CALL_WITH_ARG, CALL_WITH_REGD_ARG, CALL_WITH_RPC_ARG, CALLS_REVISION, CALLS_UID, Call,
    DISABLE_SHM_CACHE, ENABLE_SHM_CACHE, EXCHANGE_CAPABILITIES, FastCall, GET_OS_REVISION,
    GET_OS_UUID, GET_SHM_CONFIG, GET_THREAD_COUNT, RETURN_FROM_RPC, call_of_each_row, decode_call,
};
pub use examples::worked_examples;
pub use fast::fast_answer;
pub use regs::Regs;
