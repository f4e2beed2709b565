//! Addresses, cookies and bytes in hexadecimal digits.

ghost use Rattle.std.specs.Prelude.{◌≡◌, ◌∷◌, ◌++◌, OnOk};
ghost use Rattle.hex.specs.Hex.{encode_lower};
ghost use Rattle.live_play.specs.State.{cookie_text};
ghost use Rattle.play_model.specs.Line.{register_text};

use std::alloc::{AllocError, Global};

/// Appends bytes in lower-case digits.
pub(crate) fn push_digits(alloc: Global, text: &mut Vec<u8>, bytes: &[u8]) -> Result<(), AllocError>
    ensures { OnOk result (text.new.items ≡ text.old.items ++ encode_lower bytes.now) }
{
    text.extend_from_slice(hex::encode(alloc, bytes)?.as_bytes())
}

/// Appends a space, and an address of RAM in eight digits.
pub(crate) fn push_address(alloc: Global, text: &mut Vec<u8>, addr: u64) -> Result<(), AllocError>
    ensures { OnOk result (text.new.items ≡ text.old.items ++ register_text addr) }
{
    let [_, _, _, _, b4, b5, b6, b7] = addr.to_be_bytes();
    text.push(b' ')?;
    push_digits(alloc, text, &[b4, b5, b6, b7])
}

/// Appends a space, and a cookie in sixteen digits.
pub(crate) fn push_cookie(alloc: Global, text: &mut Vec<u8>, cookie: u64) -> Result<(), AllocError>
    ensures { OnOk result (text.new.items ≡ text.old.items ++ cookie_text cookie) }
{
    text.push(b' ')?;
    push_digits(alloc, text, &cookie.to_be_bytes())
}
