//! The HMAC of a message.

use crate::bytes_of;
use anyhow::{Context, Result};
use hmac::{HmacSha256, TAG_BYTES, hmac};
use std::alloc::Global;

/// That of a message by pieces of one byte.
fn by_pieces(key: &[u8], message: &[u8]) -> [u8; TAG_BYTES] {
    let mut hasher = HmacSha256::new(key);
    for byte in message {
        hasher.update(&[*byte]);
    }
    hasher.finalize()
}

/// Those of a key and a message in hexadecimal digits: of the message at once, and by pieces.
pub(crate) fn told(alloc: Global, row: &str) -> Result<String> {
    let (key, message) = row.split_once(' ').context("reading a key and a message")?;
    let (key, message) = (bytes_of(alloc, key)?, bytes_of(alloc, message)?);
    let whole = hex::encode(alloc, &hmac(key.as_slice(), message.as_slice()))?;
    let pieces = hex::encode(alloc, &by_pieces(key.as_slice(), message.as_slice()))?;
    format!(in alloc; "{whole} {pieces}").context("telling an HMAC")
}
