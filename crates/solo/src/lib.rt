//! The machine of one session as plain code: what the session's application does when nobody else is there.
//!
//! A `SoloSession` is made from the application alone and is fed with the session's own events. It stands for the
//! machine of `own_model` (`specs/Standing.antt`): each of its calls is a `Cont` over plain memory, which stands for
//! the machine's call by its phase. `step` answers as that machine does, and then stands for its next state. Each small
//! function does what one of that machine's says, under its name as an imperative: `settle` for `settles`.
//!
//! Memory is taken before anything is changed: at want of memory the machine is as it was.
//!
//! What a call does by itself is there for the machine of a group of sessions, too, and `copied_outputs` for
//! `isolation`.
//!
//! It touches no RAM, no port and no thread.
//!
//! # What is proved
//!
//! - `SoloSession::new` makes what stands for a session's machine before its open, of a boot's key and of the
//!   application that the boot, or the applications built in beside it, has under a UUID; or want of memory.
//! - `step` gives at each own event that can come the reply of `own_model`'s machine, none where that has none, and
//!   stands for the machine's next state then, so that the next event can be fed; at want of memory it stands for the
//!   machine as it was. A job is taken to its stop, however many steps that takes, or, where a cancellation is seen,
//!   through just the steps done by then.
//! - An event can come where the machine's own `step` is defined and a call that runs and goes out stays below 2^128
//!   steps, however long its buffers are. A call that comes in has to be among the session's first 2^32, since events
//!   name calls by numbers of 32 bits: that is a condition, and no want of memory. Nothing else is said of an event
//!   that can't come.
//! - `copied_outputs` copies what is told of the parameters of a call that has ended.
//! - That the replies of a session in a history are these, event by event, follows with the law of isolation
//!   (`realm_model`); both are read off a journal by `isolation`. `core_cases` runs it.
//!
//! # Definitions
//!
//! - `IsCall` (`Calls`), a call as plain data beside one of the machine: it has the same kind, flag, steps and phase,
//!   and an area and a buffer exactly where that has them
//! - `StandsFor` (`Standing`), the code beside the machine: a call that has gone out ended is none of the machine's
//! - `IsSolo`, `IsSomeSolo` (`Standing`): the code stands for a machine that is in order, whose application is valid,
//!   and none of whose calls has a longer buffer than the longest that has come: a new one stands for `unopened` with
//!   the key of the boot
//!
//! The definitions of the machine itself stand in `own_model`; here stands when the code is that machine. That is a
//! relation and no function: a call that has asked for something keeps less than its definition does.
#![tactic(auto)]

mod apps;
mod beginning;
mod coming_back;
mod coming_in;
mod copies;
mod ending;
mod entering;
mod found;
mod going_out;
mod kept_instance;
mod kept_session;
mod lengths;
mod lookups;
mod outputs;
mod room;
mod seeing;
mod solo_session;
mod stops;

pub use apps::{of_boot, shared_app};
pub use beginning::{Ready, held_of};
pub use coming_back::{end_with, is_close, is_no_buffer, take_answer, take_buffer};
pub use coming_in::{settled_call, waiting_call};
pub use ending::asked_wake;
pub use entering::Entering;
pub use going_out::{asked_in, placed_or_alloc};
pub use kept_instance::{KeptInstance, made_instance};
pub use lengths::{longest_with, longest_with_input};
pub use outputs::{copied_outputs, ended};
pub use own_model::{BackInput, OwnEvent, OwnInput, OwnReply};
pub use room::{OutputRoom, Room};
pub use seeing::see_cancel;
pub use solo_session::SoloSession;
pub use stops::{run_on, run_to_stop};
