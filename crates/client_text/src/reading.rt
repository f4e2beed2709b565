//! Reading the text of a client's script.

ghost use Rattle.std.specs.Prelude.{◌≡◌, ℕ, ◌<◌, ◌^◌, ◌+◌, ◌⊎◌, length, Ok, Err, IfOk, IfErr};
ghost use Rattle.client_text.specs.Grammar.{IsFaultOf, IsFirstFault, Spells};
ghost use Rattle.client_text.specs.Sound.{IsSoundScript};
ghost use Rattle.client_text.specs.declared.script.Script.{Script};
ghost use Rattle.trace_text.specs.Grammar.{IsPlacedIn};
ghost use Rattle.trace_text.specs.declared.fault.BadKind.{BadKind};

use crate::reader::Reader;
use crate::script::Script;
use std::alloc::Global;
use text_lines::split_line;
use trace_text::TraceFault;
use uuid::Uuid;

/// Reads the text of a client's script, whose format `docs/formats.md` states. `natives` are the UUIDs of the applications that
/// are built in, which no `ta` line may repeat.
///
/// The first line with a fault decides, and in it the first kind in the order of [`trace_text::BadKind`]. `Bad` has its place,
/// its line counted from 1.
pub fn read_script(alloc: Global, text: &[u8], natives: &[Uuid]) -> Result<Script, TraceFault>
    requires { length text.now + 1 < 2 ^ 32 }
    // What is read is spelled so.
    ensures found { IfOk result (λ script. Spells natives.now text.now script) }
    // What is spelled so is read, unless memory runs out.
    ensures only { (script : Script) → Spells natives.now text.now script
        → (result ≡ Ok script) ⊎ (result ≡ Err TraceFault.Memory) }
    // A fault is the first one.
    ensures bad { IfErr result (IsFaultOf natives.now text.now) }
    // A text with a fault is refused by its first one, unless memory runs out.
    ensures refused { (place : ℕ) (kind : BadKind) → IsFirstFault natives.now text.now place kind
        → (result ≡ Err (TraceFault.Bad place kind)) ⊎ (result ≡ Err TraceFault.Memory) }
    // It stands in a line, or behind the last one.
    ensures placed { IfErr result (IsPlacedIn text.now) }
    // What is read is within the limits of a script.
    ensures sound { IfOk result (IsSoundScript natives.now) }
{
    let mut reader = Reader::new(alloc);
    let mut place = 1u32;
    let mut rest = text;
    while let Some((line, after)) = split_line(rest) {
        if let Err(fault) = reader.take(alloc, natives, line) {
            return Err(fault.at(place));
        }
        place += 1;
        rest = after;
    }
    match reader.finish(rest) {
        Ok(script) => Ok(script),
        Err(kind) => Err(TraceFault::Bad { place, kind }),
    }
}
