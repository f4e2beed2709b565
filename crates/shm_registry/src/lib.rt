//! The buffers that the normal world has registered: for each cookie the pages of a buffer, and which thread
//! slots pin it, so that it isn't unregistered while their calls use it. And the pieces of RAM of which the
//! bytes of a buffer are made, cut at pages.
//!
//! A page list is read before a buffer is registered, so nothing here touches RAM. Once a registry is made
//! only `resolve` takes memory.
//!
//! It touches no port and no thread, either.
//!
//! # What is proved
//!
//! The registry is a finite map from cookies to buffers, with pins. Each answer comes exactly where its definition
//! says, and the whole map is said after every call. Every piece of `resolve` lies in RAM, and their lengths sum to the
//! size.
#![tactic(auto)]

mod fault;
mod laws;
mod page_buffer;
mod piece;
mod pin;
mod registry;

pub use base::NoMemory;
pub use fault::{RegisterFault, ResolveFault, UnregisterFault};
pub use laws::worked_examples;
pub use page_buffer::PageBuffer;
pub use piece::{Piece, pieces};
pub use pin::Pin;
pub use registry::{REGISTRY_LIMIT, Registry};
