//! HMAC with SHA-256 (RFC 2104, FIPS 198-1): a digest of a message that only who has the key can make.
//!
//! The message is taken in piece by piece, so it never has to stand in one place. Nothing here takes memory.
//!
//! It touches no RAM, no port and no thread.
//!
//! # What is proved
//!
//! `hmac` is RFC 2104's function with SHA-256 on lists of bytes, for a key of every length, and `HmacSha256` the same
//! over a message that is taken in piece by piece. What it stands on is `sha256` of `sha2`.
#![tactic(auto)]

mod blocks;
mod examples;
mod hasher;

pub use examples::worked_examples;
pub use hasher::{HmacSha256, TAG_BYTES, hmac};
