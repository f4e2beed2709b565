//! What the play of a trace is: its items one after the other, on one kernel, with RAM for each processor.
//!
//! The crate is one of definitions. `specs/` reads in the order of its modules:
//! - `Line`: the lines that are printed
//! - `Play`: what has been played so far, and one function for each kind of item
//! - `Text`: the bytes that a trace prints
//! - `Order`: which histories hold the items in their order
//! - `Laws`, `Realms`, `Ram`: what holds of each play
//!
//! Nothing here touches RAM, a port or a thread.
//!
//! # What is proved
//!
//! Of the play of each trace over any RAM, where its items can come (`traces_are_played`):
//! - its history is legal from its boot, its kernel is the one that the history comes to, and the history is what its
//!   items let happen, one after the other with their registers and steps, all of them or those before a refused entry;
//! - the returns that it prints are the exits of that history, in their order;
//! - its entries stay within the read limit, and a refused one would have passed it;
//! - a return from RPC resumes the call that is suspended in its slot for its client, which the last exit from there
//!   left, or ERESUME is fixed and only its processor's part changes;
//! - a processor goes out with ERESUME exactly where its resume found no call, and with ETHREAD_LIMIT exactly where its
//!   new call found no slot free;
//! - each session whose application shares no instance was answered as its own machine answers to its events; that
//!   speaks of each such session which the kernel keeps on its instance at any place of the history;
//! - the sessions of each application of the boot whose sessions share an instance were answered as their group's
//!   machine answers to the group's events; each such session that the kernel keeps on it at any place of the history has
//!   its number in its group from there to the end of the history.
//!
//! Of each legal history, and so of each play's, the last two are one law besides (`histories_have_realms`): a realm, one
//! session or all sessions of an application, was answered as the machine of a group which has what happened to the realm
//! alone; each session that the kernel keeps at any place of the history is in a realm from there on, also while its open
//! waits for an instance that is gone.
//!
//! In one record (`IsTrueToKernel`, by `plays_are_true_to_the_kernel`) all of this, the law of realms too, holds of the
//! play over RAM of zeros with the trace's fills, and besides:
//! - each exit of the history has the registers that the kernel gives it after the events before;
//! - a return from RPC that finds no call changes nothing but the history: at its entry, and at its exit whatever
//!   others do between, its processor's part of the kernel alone changes, which is outside again in the end; it is
//!   answered ERESUME, and no RAM is written.
//!
//! Of its items:
//! - an entry has one list of reads (`entries_are_read`); a processor that has an exit goes out with it (`exits_come`);
//!   an exit with a fixed answer, as ERESUME is, leaves RAM and all of the kernel but its processor's part
//!   (`fixed_answers_pass`);
//! - a play goes on from where its first items end, with what they printed at its front (`plays_go_on`); however many
//!   bytes its entries may read, they go on to read no more, and a refused one would have passed that;
//! - none makes the RAM of a processor shorter, wherever it writes, so that where RAM has each byte at first, each
//!   processor's has it behind all items (`ram_is_kept`);
//! - behind the first items of a sound trace, none of which was refused, the next one can come (`items_can_come`): its
//!   processor is outside or inside as it has to be, and there is RAM for each processor;
//! - what can come comes, so that each sound trace has a play and a text (`traces_have_plays`): an entry reads in RAM
//!   alone, so that it has a decision, and a processor that is inside has an exit.
//!
//! The plays of nine scripts print what is written there, byte for byte.
#![tactic(auto)]

mod laws;

pub use laws::{
    entries_are_read, exits_come, fixed_answers_pass, histories_have_realms, items_can_come,
    plays_are_true_to_the_kernel, plays_go_on, ram_is_kept, traces_are_played, traces_have_plays,
    worked_examples,
};
