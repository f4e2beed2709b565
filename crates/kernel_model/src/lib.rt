//! The kernel, written down: what its state is, what one entry of a processor and one exit do to it, which
//! histories are legal, and what a resume continues.
//!
//! The crate is one of definitions. `specs/` reads in the order of its modules: `Kernel` has the state, `Entry`
//! and `Exit` the two kinds of event, each by short functions, one for each kind of call, and `History` what
//! they make of a whole history. An entry is a reader: it depends on the normal world's RAM only through the
//! reads that it lists. An exit is a function of the kernel alone.
//!
//! Nothing here touches RAM, a port or a thread.
//!
//! # What is proved
//!
//! The definitions have these laws. Of entries and exits:
//! - a fixed answer's entry and exit change nothing but their processor's part, which is outside again
//!   (`fixed_answers_change_one_processor`);
//! - ETHREAD_LIMIT is fixed at an entry exactly where a new call finds no slot free
//!   (`limit_comes_exactly_without_a_slot`);
//! - ERESUME is fixed exactly where a resume finds no call that is suspended in its slot for its client; where it finds
//!   one, the kernel after it is what that call comes to with the entry's reads (`resumes_come_exactly`).
//!
//! In each legal history:
//! - the a0 of an exit is 1, or 3, exactly where the processor's call found no slot, or no call, as it came in
//!   (`answers_come_exactly`);
//! - a resume that is let in is one of the call that the last exit from its slot left suspended there, for the client
//!   of that call: but for a mark set since, the kernel after it is what that call comes to
//!   (`resumes_continue_what_was_left`);
//! - the registers of an exit are a function of the events before it (`exits_follow_from_the_past`);
//! - a processor is inside exactly where the last of its own events is an entry, and then with that entry's registers
//!   and steps (`processors_stand_by_their_events`);
//! - each read of each entry has at least one byte, and all its bytes lie in RAM (`histories_read_ram`).
//!
//! Of each kernel that a legal history comes to:
//! - *slots and processors*: there are as many as at the boot (`slots_are_as_many`); a processor is inside for a slot
//!   exactly where it works on that slot's call (`processors_work_on_their_slots`), and a processor that is inside has
//!   an exit (`exits_come`), since each machine that runs is of a valid image; the events of others leave its part and
//!   its call as they are, but for the call's mark (`others_stay_away`);
//! - *steps*: for each entry a call has done at most the step limit (`steps_are_of_entries`; `steps_are_granted` says
//!   it by events);
//! - *numbers*: those of sessions, instances, calls and waiters were given, there were no more instances than sessions,
//!   and they fit 32 bits and never sink (`numbers_are_given`, `numbers_rise`); the tables are in the order of their
//!   numbers, with at most 64 sessions and 64 registered buffers (`tables_are_in_order`);
//! - *waiters* are the calls that wait, each once (`waiters_are_calls`), and so at most sixteen (`waiters_are_a_line`);
//! - *calls*: one that works holds its instance and has its session, which is opened exactly where the call isn't the
//!   open itself, and an instance's holder is the slot of such a call (`calls_fit_their_tables`); a session that was
//!   opened has its instance, dead or not (`sessions_keep_their_instances`);
//! - *memory*: an instance is of an application of the boot and has all its memory while no call holds it, or none
//!   where it is dead, and the job of a call that works has that memory (`memory_is_kept`), which is the pages of the
//!   image that its machine runs (`machines_have_their_pages`); each frame is free, or one of an instance that isn't
//!   dead (`frames_are_free_or_used`);
//! - *places*: a call's argument, the places of its parameters, its area and its buffer lie in RAM
//!   (`calls_have_their_places`); a message has room for what a call asks, with its payload (`requests_fit`); only
//!   slots with calls pin registered buffers (`pins_are_of_calls`);
//! - *instances*: at most one is kept for each session, and one that each of sixteen applications keeps alive, one less
//!   where the instance of a session is gone (`instances_are_few`), and so at most 80 (`instances_are_at_most_80`).
//!
//! The definitions give what the worked histories say, and one of these is shown to be legal from its boot
//! (`some_history_is_legal`).
#![tactic(auto)]

mod laws;
mod soundness;

pub use laws::{
    answers_come_exactly, exits_follow_from_the_past, fixed_answers_change_one_processor,
    histories_read_ram, limit_comes_exactly_without_a_slot, processors_stand_by_their_events,
    resumes_come_exactly, resumes_continue_what_was_left, some_history_is_legal, worked_examples,
};
pub use soundness::{
    calls_fit_their_tables, calls_have_their_places, exits_come, frames_are_free_or_used,
    instances_are_at_most_80, instances_are_few, machines_have_their_pages, memory_is_kept,
    numbers_are_given, numbers_rise, others_stay_away, pins_are_of_calls,
    processors_work_on_their_slots, requests_fit, sessions_keep_their_instances, slots_are_as_many,
    steps_are_granted, steps_are_of_entries, tables_are_in_order, waiters_are_a_line,
    waiters_are_calls,
};
