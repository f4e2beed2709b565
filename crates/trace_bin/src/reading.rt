//! Reading all of the bytes.

ghost use Rattle.std.specs.Prelude.{◌≡◌, ℕ, ◌<◌, ◌≤◌, ◌^◌, ◌+◌, ◌⊎◌, length, Ok, Err, IfOk, IfErr, IfNone};
ghost use Rattle.trace_bin.specs.Grammar.{IsFaultOf, IsFirstFault, Spells, front_fault};
ghost use Rattle.trace_text.specs.Sound.{IsSound};
ghost use Rattle.trace_text.specs.declared.fault.BadKind.{BadKind};
ghost use Rattle.trace_text.specs.declared.trace.Trace.{Trace};

use crate::taking::take_record;
use std::alloc::Global;
use trace_text::{BadKind, Builder, Trace, TraceFault};
use uuid::Uuid;

/// The first four bytes of a binary trace, `OTTB`.
pub const MAGIC: [u8; 4] = *b"OTTB";

/// What is wrong with the first four bytes, which have to be these.
#[tactic(auto, unfolding(crate::specs::Grammar::front_fault))]
pub fn front_fault(wanted: &[u8], bytes: &[u8]) -> Option<BadKind>
    ensures which { result ≡ front_fault wanted.now bytes.now }
    ensures four { IfNone result (4 ≤ length bytes.now) }
{
    if bytes.len() < 4 {
        return Some(BadKind::Cut);
    }
    if bytes.starts_with(wanted) {
        None
    } else {
        Some(BadKind::Item)
    }
}

/// Reads the bytes of a trace, whose format `docs/formats.md` states. `natives` are the UUIDs of the applications that
/// are built in, which no record may repeat.
///
/// The first record with a fault decides, and in it the first kind in the order of [`BadKind`], but `Item` before `Cut`. `Bad`
/// has its place: 0 for the first four bytes, then the number of the record, counted from 1; [`BadKind::Unended`]
/// has the place behind the last record.
pub fn read_binary(alloc: Global, bytes: &[u8], natives: &[Uuid]) -> Result<Trace, TraceFault>
    requires { length bytes.now + 1 < 2 ^ 32 }
    // What is read is spelled so.
    ensures found { IfOk result (λ trace. Spells natives.now bytes.now trace) }
    // What is spelled so is read, unless memory runs out.
    ensures only { (trace : Trace) → Spells natives.now bytes.now trace
        → (result ≡ Ok trace) ⊎ (result ≡ Err TraceFault.Memory) }
    // A fault is the first one.
    ensures bad { IfErr result (IsFaultOf natives.now bytes.now) }
    // Bytes with a fault are refused by their first one, unless memory runs out.
    ensures refused { (place : ℕ) (kind : BadKind) → IsFirstFault natives.now bytes.now place kind
        → (result ≡ Err (TraceFault.Bad place kind)) ⊎ (result ≡ Err TraceFault.Memory) }
    // What is read is within the limits of a trace.
    ensures sound { IfOk result (IsSound natives.now) }
{
    if let Some(kind) = front_fault(&MAGIC, bytes) {
        return Err(TraceFault::Bad { place: 0, kind });
    }
    let mut builder = Builder::new(alloc);
    let mut place = 1u32;
    let mut rest = &bytes[4..];
    while !rest.is_empty() {
        match take_record(alloc, natives, &mut builder, rest) {
            Ok(after) => rest = after,
            Err(fault) => return Err(fault.at(place)),
        }
        place += 1;
    }
    match builder.finish() {
        Ok(trace) => Ok(trace),
        Err(kind) => Err(TraceFault::Bad { place, kind }),
    }
}
