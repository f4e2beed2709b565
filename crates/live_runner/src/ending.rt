//! The lines that end answers.

ghost use Rattle.std.specs.Prelude.{◌≡◌, ◌++◌, IsErr, OnOk};
ghost use Rattle.live_play.specs.Answer.{Bad, Done, Full, TooLong, text_of_ending};
ghost use Rattle.trace_text.specs.declared.fault.BadKind.{BadKind};

use answer_lines::push_numbered;
use std::alloc::AllocError;
use trace_text::{BadKind, LineFault};

/// Appends the line that ends the answer to one that counts.
pub(crate) fn push_done(text: &mut Vec<u8>) -> Result<(), AllocError>
    ensures { OnOk result (text.new.items ≡ text.old.items ++ text_of_ending Done) }
{
    text.extend_from_slice(b"ok\n")
}

/// Appends the line that is the answer to one that breaks this rule.
pub(crate) fn push_bad(text: &mut Vec<u8>, kind: BadKind) -> Result<(), AllocError>
    ensures { OnOk result (text.new.items ≡ text.old.items ++ text_of_ending (Bad kind)) }
{
    text.extend_from_slice(b"bad ")?;
    text.extend_from_slice(kind.word().as_bytes())?;
    text.push(b'\n')?;
    Ok(())
}

/// Appends the line that is the answer to one with this fault, where that isn't want of memory.
pub(crate) fn push_fault(text: &mut Vec<u8>, fault: LineFault) -> Result<(), AllocError>
    ensures told { (kind : BadKind) → fault ≡ LineFault.Broken kind →
        OnOk result (text.new.items ≡ text.old.items ++ text_of_ending (Bad kind)) }
    ensures no_room { fault ≡ LineFault.NoRoom → IsErr result }
{
    match fault {
        LineFault::Broken(kind) => push_bad(text, kind),
        LineFault::NoRoom => Err(AllocError),
    }
}

/// Appends the line that is the answer to one that is too long.
pub(crate) fn push_too_long(text: &mut Vec<u8>) -> Result<(), AllocError>
    ensures { OnOk result (text.new.items ≡ text.old.items ++ text_of_ending TooLong) }
{
    text.extend_from_slice(b"bad long\n")
}

/// Appends the line that is the answer where an entry is refused, before which so many bytes were read.
pub(crate) fn push_full(text: &mut Vec<u8>, copied: u64) -> Result<(), AllocError>
    ensures { OnOk result (text.new.items ≡ text.old.items ++ text_of_ending (Full copied)) }
{
    push_numbered(text, b"full ", copied)?;
    text.push(b'\n')?;
    Ok(())
}
