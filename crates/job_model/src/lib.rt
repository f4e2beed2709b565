//! What a call of an application is, as data: its job, how many steps take it where, and its one stop.
//!
//! A job is the machine of an application at one of its entry points, with those still to come. `specs/` says
//! what so many steps make of it, however they are cut into grants. The crate is one of definitions: the
//! kernel's entries and exits, the continuations of calls and the machine of one session cite it.
//!
//! Nothing here touches RAM, a port or a thread.
//!
//! # What is proved
//!
//! - Steps of a job add up (`steps_add_up`, `stops_add_up`), and it has at most one stop (`one_stop`).
//! - What a grant comes to is the job after its steps, or that stop (`grants_take_on`), and a grant that reaches the
//!   stop comes to it (`grants_reach_stops`); a grant to a job whose machine runs is a run of that machine, and then
//!   the rest of the grant to what the run leaves (`grants_run_machines`).
//! - A job that stops with a request takes each answer, and goes on or asks for something else (`answers_are_taken`).
//!   What it asks for fits a message, at its stop and behind each answer (`requests_fit`).
//! - Neither a step nor an answer takes back that its call has seen that it was cancelled (`cancel_stays_seen`).
#![tactic(auto)]

mod call_kind;
mod entry_point;
mod laws;

pub use call_kind::CallKind;
pub use entry_point::EntryPoint;
pub use laws::{
    answers_are_taken, cancel_stays_seen, grants_reach_stops, grants_run_machines, grants_take_on,
    one_stop, requests_fit, steps_add_up, stops_add_up, worked_examples,
};
