//! The supplicant of the normal world: what answers the requests of a core's calls, for the time and for files.
//!
//! It keeps files by their names, and which of them are open, in memory. `specs/Supplicant.antt` has what it answers
//! to each request and how it then stands; `Supplicant::answer` does just that, and changes nothing at want of memory.
//!
//! `rpc_msgs` writes requests and reads replies, for a core; this crate reads requests and writes replies, for what
//! answers a core's calls. A message holds a request only if it has just the bytes that are written for one, as far as
//! they count; any other bytes are no request. `specs/Holding.antt` says so, and `specs/Answering.antt` what is written
//! to answer.
//!
//! Only the supplicant takes memory.
//!
//! It touches the RAM of the world that it is lent, and no thread.
//!
//! # What is proved
//!
//! `answer` gives the reply of the definition to each request with its payload, and leaves the files, the descriptors
//! and the count of times that the definition leaves; at want of memory they are as before. A reply is one to its
//! request (`kind`), a descriptor that is given was free (`free`), and a refusal changes nothing. `read_request` gives
//! the request that the message of a world holds, with its payload, and None exactly where it holds none; `put_reply`
//! and `put_refusal` make the writes of the definition, and no SMC. What `put_request` of `rpc_msgs` wrote is held
//! (`requests_are_held`), and what `read_reply` reads of a reply that was written is that reply (`replies_are_read`).
//! `put_reply` asks for a reply to that request.
#![tactic(auto)]

mod by_descriptor;
mod by_name;
mod candidate;
mod examples;
mod file;
mod laws;
mod name;
mod reply;
mod request;
mod supplicant;

pub use examples::worked_examples;
pub use laws::{replies_are_read, requests_are_held};
pub use reply::{put_refusal, put_reply};
pub use request::{Request, read_request};
pub use supplicant::Supplicant;
