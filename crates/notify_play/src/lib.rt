//! What the play of a trace with signals is, where a desk of signals answers above the core.
//!
//! The crate is one of definitions, over the play of a trace. `specs/` reads in the order of its modules:
//! - `Duty`, `Told`: what an exit asks of the desk, and what a processor is then told and what is written
//! - `NotifyPlay`, `Text`: the play, and the bytes that a trace prints
//! - `Asked`: what the desk is asked by steps and by exits
//! - `Order`: which histories hold what steps let happen, and what is told then
//! - `Laws`: what holds of each play
//!
//! Nothing here touches RAM, a port or a thread.
//!
//! # What is proved
//!
//! Of the play of each trace with signals over any RAM, up to each of its steps (`steps_are_played`), whatever was
//! signalled:
//! - its history is legal from its boot, its kernel is the one that the history comes to, and each exit in it has the
//!   kernel's own answer. So what holds of legal histories holds of it: of returns from RPC, which change nothing but
//!   the history where they find no call, of the thread limit, of sessions that share no instance, of those that share
//!   one, and of realms;
//! - its entries read at most as many bytes in all as they may, up to the read limit where the trace is played by
//!   `notify`, and a refused one would have passed that;
//! - a bottom half that comes next calls exactly the drivers that were signalled, while signals counted, since the last
//!   bottom half or stop, each with the number of these signals, at most 2^32 - 1.
//!
//! The play holds its steps in their order, all of them or those before a refused entry (`steps_hold_in_order`):
//! - its history is the entries and exits that they let happen, where `=i` is a register as it was told, with each
//!   signal at its place;
//! - the returns that it prints are the exits of that history, each once and in their order, with the kernel's answer,
//!   or with what the desk makes of it, as it stands by then.
//!
//! From each play on, so also over any part of its steps, the desk gets exactly the signals of the steps that are
//! taken, in their order, and what the exits of the history ask of it, in theirs; all steps are taken, unless an entry
//! is refused (`steps_call_desk`).
//!
//! An exit that asks nothing of the desk comes to the kernel, the RAM and the lines to which it comes without signals
//! (`other_exits_stay`); that of a return from RPC is one (`resumes_ask_nothing`). Where ETHREAD_LIMIT is told, the
//! kernel has said so, and where it says so to a new call, that is told (`limit_is_the_kernels`): the desk makes none,
//! and hides none.
//!
//! The plays of seven short scripts and of seven longer ones print what is written there, byte for byte.
#![tactic(auto)]

mod laws;

pub use laws::{
    limit_is_the_kernels, other_exits_stay, resumes_ask_nothing, steps_are_played, steps_call_desk,
    steps_hold_in_order, worked_examples,
};
