ghost use Rattle.std.specs.Prelude.{◌≡◌, ℕ, ◌<◌, ◌^◌, ◌+◌, ◌⊎◌, length, Ok, Err, IfOk, IfErr};
ghost use Rattle.trace_text.specs.Grammar.{Spells, IsFirstFault, IsFaultOf, IsPlacedIn};
ghost use Rattle.trace_text.specs.Sound.{IsSound};
ghost use Rattle.trace_text.specs.declared.fault.BadKind.{BadKind};
ghost use Rattle.trace_text.specs.declared.trace.Trace.{Trace};

use crate::builder::Builder;
use crate::fault::TraceFault;
use crate::trace::Trace;
use std::alloc::Global;
use text_lines::split_line;
use uuid::Uuid;

/// Reads the text of a trace, whose format `docs/formats.md` states. `natives` are the UUIDs of the applications that
/// are built in, which no `ta` line may repeat.
///
/// The first line with a fault decides, and in it the first kind in the order of [`BadKind`]. `Bad` has its place, its
/// line counted from 1; [`BadKind::Unended`] has the place behind the last line.
pub fn read_trace(alloc: Global, text: &[u8], natives: &[Uuid]) -> Result<Trace, TraceFault>
    requires { length text.now + 1 < 2 ^ 32 }
    // What is read is spelled so.
    ensures found { IfOk result (λ trace. Spells natives.now text.now trace) }
    // What is spelled so is read, unless memory runs out.
    ensures only { (trace : Trace) → Spells natives.now text.now trace
        → (result ≡ Ok trace) ⊎ (result ≡ Err TraceFault.Memory) }
    // A fault is the first one.
    ensures bad { IfErr result (IsFaultOf natives.now text.now) }
    // A text with a fault is refused by its first one, unless memory runs out.
    ensures refused { (place : ℕ) (kind : BadKind) → IsFirstFault natives.now text.now place kind
        → (result ≡ Err (TraceFault.Bad place kind)) ⊎ (result ≡ Err TraceFault.Memory) }
    // It stands in a line, or behind the last one.
    ensures placed { IfErr result (IsPlacedIn text.now) }
    // What is read is within the limits of a trace.
    ensures sound { IfOk result (IsSound natives.now) }
{
    let mut reader = Builder::new(alloc);
    let mut place = 1u32;
    let mut rest = text;
    while let Some((line, after)) = split_line(rest) {
        if let Err(fault) = reader.take(alloc, natives, line) {
            return Err(fault.at(place));
        }
        place += 1;
        rest = after;
    }
    match reader.finish_text(rest) {
        Ok(trace) => Ok(trace),
        Err(kind) => Err(TraceFault::Bad { place, kind }),
    }
}
