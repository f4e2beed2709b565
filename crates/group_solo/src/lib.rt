//! The machine of a group of sessions as plain code: what a single-instance application and its sessions do when no other
//! application is there.
//!
//! A `GroupSolo` is made from the application alone and is fed with the group's own events. It stands for the machine
//! of `group_model` (`specs/Standing.antt`): each of its calls is a `Cont` over plain memory, with the numbers of its
//! session and of its instance. `step` answers as that machine does, and then stands for its next state. Each small
//! function does what one of that machine's says, under its name as an imperative: `settle` for `settles`. What a call
//! does by itself is that of `solo`.
//!
//! Memory is taken before anything is changed: at want of memory the machine is as it was.
//!
//! It touches no RAM, no port and no thread.
//!
//! # What is proved
//!
//! - `GroupSolo::new` makes what stands for a group's machine before a call has come in, of a boot's key and of the
//!   application that the boot has under a UUID, whose sessions share an instance; or want of memory.
//! - `step` gives at each event that can come the reply of `group_model`'s machine, none where that has none, and
//!   stands for the machine's next state then; at want of memory it stands for the machine as it was. A job is taken to
//!   its stop, however many steps that takes, or, where a cancellation is seen, through just the steps done by then.
//! - An event can come where the machine's own `step` is defined and a call that runs and goes out stays below 2^128
//!   steps, however long its buffers are. A call that comes in has to be among the group's first 2^32, since events
//!   name calls by numbers of 32 bits: that is a condition, and no want of memory. Nothing else is said of an event
//!   that can't come.
//! - That the replies of a group in a history are these follows with the law of groups (`realm_model`); both are read
//!   off a journal by `instance_groups`. `core_cases` runs it.
//!
//! # Definitions
//!
//! - `alone`, `IsGroupCall` (`Calls`): a call as plain data is a call of the machine: by itself it is one as a
//!   session's code keeps it (`IsCall` of `solo`), and it has the same session, instance and word on room
//! - `IsGroup`, `IsSomeGroup` (`Standing`): the code stands for the machine, whose numbers fit the replies, whose
//!   application is valid, and none of whose calls has a longer buffer than the longest that has come
#![tactic(auto)]

mod about;
mod beginning;
mod coming_back;
mod coming_in;
mod ending;
mod found;
mod going_out;
mod group;
mod kept_call;
mod kept_session;
mod lengths;
mod lookups;
mod opener;
mod opening;
mod seeing;
mod sessions;
mod shared;
mod waiter;

pub use group::GroupSolo;
pub use group_model::{GroupEvent, GroupReply};
pub use own_model::{BackInput, OwnInput, OwnReply};
