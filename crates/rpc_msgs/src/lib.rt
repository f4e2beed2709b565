//! The messages in which a call asks the normal world for something: the time, to sleep or to wake another
//! thread, to be suspended, or a file's bytes.
//!
//! A message is an argument of `optee_msg.h` and the bytes that go with it, its payload. It stands in a buffer of 4096
//! bytes that the normal world has lent, the argument at its start and the payload at 512; or its argument stands in an
//! area of 160 bytes that the call has brought along, and the payload, if it has one, in such a buffer. This crate
//! writes a request there and reads the reply. It trusts nothing that stands in a reply: each number is read once, and a
//! size above what was asked for gives no bytes. What a reply means is no concern of this crate.
//!
//! `specs/Request.antt` has what is written of each request, `specs/Reply.antt` what is read of the reply to it,
//! `specs/Answer.antt` which replies there are, and `specs/Place.antt` where a request stands. Names and numbers of the
//! commands, and the parameters of the time, notifications and a suspension, are those of OP-TEE's `optee_rpc_cmd.h`;
//! the functions of files and their parameters are this project's own.
//!
//! Only `take_reply` takes memory, for its list of reads.
//!
//! It touches the lane that it is lent, and no port and no thread.
//!
//! # What is proved
//!
//! - `FileName::new` makes a name exactly of at most 161 bytes of ASCII, and names each refusal; `bytes` gives them
//!   back.
//! - `put_request` makes the table's writes in their order, and nothing else; they lie in the bytes of the argument and
//!   of the buffer (`requests_stay_in_their_places`). `put_request_at` makes those of a place, and `RequestPlace::of`
//!   is the definition's place.
//! - `read_reply` gives what the request's reader makes of the lane, which reads each number once and in its order;
//!   `take_reply` fills in a reply so, lists these reads, and leaves the list as it was at want of memory. What comes
//!   of any reads is a reply to the request (`readings_are_replies`), and each reply comes of some
//!   (`replies_are_read`).
#![tactic(auto)]

pub mod commands;
mod examples;
mod fault;
mod file_name;
mod laws;
mod payload;
mod reply;
mod request;
mod request_place;
mod rpc;
mod rpc_buffer;

pub use examples::worked_examples;
pub use fault::FileNameFault;
pub use file_name::{FileName, MAX_FILE_NAME};
pub use laws::{readings_are_replies, replies_are_read, requests_stay_in_their_places};
pub use payload::{MAX_PAYLOAD, Payload};
pub use reply::{read_reply, take_reply};
pub use request::{
    ARGUMENT_BYTES, MESSAGE_BYTES, PAYLOAD_OFFSET, put_request, put_request_at, request_arg,
};
pub use request_place::RequestPlace;
pub use rpc::{Rpc, RpcReply};
pub use rpc_buffer::RpcBuffer;
