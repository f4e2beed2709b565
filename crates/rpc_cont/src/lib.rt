//! A call of a trusted application as plain data: what is left of it while it is suspended, and how it goes on.
//!
//! A call is moved out of the kernel, taken on by so many steps without it, and moved back. It stands for a job of
//! `job_model`: `advance` gives that job after the steps, or its stop, and `resume_with` gives it the answer to what
//! it has asked for. What stands in a call is all that is left of it, so another processor can go on with it.
//!
//! Nothing here takes memory.
//!
//! It touches no RAM, no port and no thread.
//!
//! # What is proved
//!
//! - `advance` is a grant of steps to the job that the call stands for: what the call then is stands for the job after
//!   them, or its answer is the job's stop, with what that leaves, and its count of steps rises by those used; a call
//!   that has asked for something can be answered, and one that has ended or panicked asks for nothing.
//! - `resume_with` gives the job its answer, as `resume_with_reply` does one that is lent, and the job takes it: it
//!   goes on, or asks for something else; a buffer is kept, and all else stays. `see_cancel` is the job that has seen
//!   its cancellation, and `begin` the job at an entry point.
//! - A call that opens, invokes or closes on its instance, or begins on it later, stands for the job that begins there.
//!   A call is made, begun and left by `advance` in the shape of its phase (`IsShaped`).
//! - The instance's memory is never lost: the call or its machine has as many bytes of it as before.
//! - A call is made with a key, and its job asks for objects under the key that it has: the functions of a call leave
//!   that.
#![tactic(auto)]

mod advance;
mod answers;
mod app;
mod asks;
mod begin;
mod call_entry;
mod cont;
mod examples;
mod held;
mod input;
mod machine_span;
mod new_call;
mod phase;
mod resume;
mod stop;

pub use app::ContApp;
pub use call_entry::CallEntry;
pub use cont::{Asked, Cont};
pub use examples::worked_examples;
pub use held::Held;
pub use input::ResumeInput;
pub use job_model::{CallKind, EntryPoint};
pub use phase::Phase;
pub use rpc_msgs::RpcBuffer;
pub use stop::ContStop;
