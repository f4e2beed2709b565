//! What a client's script does on a core, and what is printed for it.
//!
//! The crate is one of definitions: a script's play is the one play of a core's processor 0 in which a client (`teec`)
//! makes the script's calls, one after the other, and its supplicant answers what the core asks for meanwhile. `specs/`
//! reads in this order:
//! - `Message`, `Making`: what the supplicant makes of a message, as a function, and what is written before an SMC
//! - `Standing`, `Calls`: one call from its first SMC to its end, and the calls of a script
//! - `Printed`, `Played`: the lines of a script, and its play and text
//! - `Served`: what a port over a core says of its SMCs
//! - `Laws`: what holds of a client's calls
//! - `Outputs`: what a line says of the outputs of a call
//! - `PlayLaws`: what holds of plays
//!
//! Nothing here touches RAM, a port or a thread.
//!
//! # What is proved
//!
//! - What is written before an SMC, and what the supplicant makes of a message, is what `teec` says of a client over
//!   any port, and nothing else (`prepares_alike`).
//! - Where the SMCs of such a client were served by a core, one after the other, its run over the port is the call on
//!   the core. One that ends returns with what then stands there (`runs_are_calls`), and one that fails by its answers
//!   fails (`runs_fail`). One whose next SMC has no room stops there, with the bytes that its entry would have read, or
//!   with 0 where as many SMCs were made as the client makes (`runs_stop`).
//! - SMCs were served so where their events follow on a history, and each has the writes of its exit
//!   (`smcs_are_served`).
//! - A call that returns has made just the SMCs of a client, which the core has served, with the writes and the replies
//!   of a client between them, and the core's history has their events and no others (`calls_are_made_alike`). That an
//!   exit writes to RAM alone, which a port promises besides, is its premise there.
//! - The history of a script's play is that of a trace whose items are the client's writes to processor 0's RAM and its
//!   SMCs, and the play of that trace is true to the written kernel, so that the history is legal from the script's
//!   boot (`plays_are_of_traces`).
//! - Each script within its limits has a play (`scripts_have_plays`). No call of its client fails: between two calls
//!   all slots of the core are free, and in a call the first slot holds it, suspended for the client, while a
//!   cancellation takes the second for one entry and its exit.
//! - Each printed result of a session whose application's sessions share no instance is told alone
//!   (`results_are_told_alone`): it is the result, in 32 bits, of the session's last reply by then, that a call has
//!   ended, and the session's own machine gives just its replies. That reply is one to this very call: it comes with
//!   the call's last exit, and is none of those that the session had when the call began.
//! - Where the application returned that result, what the line has of each parameter tells the output of this reply
//!   (`TellsOutputs`): both numbers of a value, and of memory the size with as many bytes, or none where the buffer has
//!   fewer. Such outputs are printed as those of the reply are (`outputs_are_printed`), each by itself
//!   (`each_output_is_printed`). What that memory held meanwhile, and whoever wrote it, makes no difference, since the
//!   exit writes it last; of bytes behind the size nothing is printed.
//! - For memory this asks that the size which the application sets is below 2^32, as its machine's registers are: that
//!   it is, and that results are, isn't stated. A client of scripts registers no memory, so nothing is said of that.
//! - All this of results and outputs holds of an open that was given a session, also where it then failed, and of each
//!   other call whose name stands for a session that the client has opened.
//!
//! The check works out the texts of three small scripts, and what the session of one was replied.
#![tactic(auto)]

mod laws;

pub use laws::{
    calls_are_made_alike, each_output_is_printed, outputs_are_printed, plays_are_of_traces,
    prepares_alike, results_are_told_alone, runs_are_calls, runs_fail, runs_stop,
    scripts_have_plays, smcs_are_served, worked_examples,
};
