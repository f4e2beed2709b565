//! The line of an input that leaves its grammar.

ghost use Rattle.std.specs.Prelude.{◌≡◌, [], ◌∷◌, ◌++◌, IfOk, OnOk};
ghost use Rattle.trace_text.specs.Fault.{kind_word};
ghost use Rattle.word_parts.specs.Line.{bad_trace_line};

use answer_lines::push_numbered;
use std::alloc::{AllocError, Global};
use trace_text::BadKind;

/// Appends the kind of a fault, which ends the line.
fn push_kind(alloc: Global, line: &mut Vec<u8>, kind: BadKind) -> Result<(), AllocError>
    ensures { OnOk result (line.new.items ≡ line.old.items ++ 32 ∷ kind_word kind ++ 10 ∷ []) }
{
    line.push(b' ')?;
    line.extend_from_slice(kind.to_string(alloc)?.as_bytes())?;
    line.push(b'\n')?;
    Ok(())
}

/// The line of an input that is no trace: the place of its first fault and the kind of it.
pub fn bad_trace_line(alloc: Global, place: u32, kind: BadKind) -> Result<Vec<u8>, AllocError>
    ensures { IfOk result (λ line. line.items ≡ bad_trace_line place kind) }
{
    let mut line = Vec::new(alloc);
    push_numbered(&mut line, b"bad trace ", u64::from(place))?;
    push_kind(alloc, &mut line, kind)?;
    Ok(line)
}
