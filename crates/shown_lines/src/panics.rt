//! The panic in which a call has ended.

ghost use Rattle.std.specs.Prelude.{◌≡◌, ◌++◌, OnOk};
ghost use Rattle.live_play.specs.Panicking.{panic_line};
ghost use Rattle.live_play.specs.State.{text_if};

use crate::digits::push_address;
use std::alloc::{AllocError, Global};

/// Appends the line of a panic's code.
fn push_code(alloc: Global, text: &mut Vec<u8>, code: u32) -> Result<(), AllocError>
    ensures { OnOk result (text.new.items ≡ text.old.items ++ panic_line code) }
{
    text.extend_from_slice(b"panic")?;
    push_address(alloc, text, u64::from(code))?;
    text.push(b'\n')?;
    Ok(())
}

/// Appends the line of the panic in which a call has ended, if it did.
pub fn push_panic(alloc: Global, text: &mut Vec<u8>, panic: Option<u32>) -> Result<(), AllocError>
    ensures { OnOk result (text.new.items ≡ text.old.items ++ text_if panic_line panic) }
{
    let Some(code) = panic else {
        return Ok(());
    };
    push_code(alloc, text, code)
}
