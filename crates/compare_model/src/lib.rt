//! What two journals show of a session, or of the sessions that share one instance: whether the same happened to it in both, or
//! where that first differs.
//!
//! Definitions and their laws, and the types of what is compared and of the answers.
//!
//! Nothing here touches RAM, a port or a thread.
//!
//! # What is proved
//!
//! Two journals and a session or a group have one answer at most (`one_comparison`). In each journal whose events are a
//! legal history either was answered as the machine that has its events alone answers, by the law of isolation or that
//! of groups (`journals_are_answered_alone`). So where two journals of boots with one key show the same of it, it was
//! answered the same in both (`same_journals_give_same_replies`); where the keys differ they are told as two. The check
//! works out all five answers on two journals and a session, and on two journals and a group. Each pair of journals
//! whose boots a core can have has an answer: `compare_on` of `session_compare` computes it.
#![tactic(auto)]

mod compared;
mod laws;
mod subject;

pub use compared::Compared;
pub use laws::{
    group_examples, journals_are_answered_alone, one_comparison, same_journals_give_same_replies,
    session_examples,
};
pub use subject::Subject;
