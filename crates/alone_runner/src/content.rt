//! Reading an input in its grammar.

ghost use Rattle.std.specs.Prelude.{◌≡◌, ◌≤◌, ◌^◌, IfErr, IfOk, length};
ghost use Rattle.trace_text.specs.Sound.{IsSound};
ghost use Rattle.ta_asm.specs.declared.fault.AsmFault.{AsmFault};
ghost use Rattle.alone_runner.specs.Content.{IsFaultOf, IsSoundContent, Spells, fault_of};

use crate::command::Grammar;
use std::alloc::Global;
use ta_asm::{AsmFault, assemble};
use ta_isa::Image;
use trace_bin::read_binary;
use trace_text::{BadKind, Trace, TraceFault, read_trace};
use uuid::Uuid;

/// What an input spells.
#[derive(Drop)]
pub enum Content {
    /// A trace, which is played.
    Trace(Trace),
    /// An image, whose bytes are printed.
    Image(Image),
}

/// What a fault of the assembler is called in an answer.
fn fault_of(fault: AsmFault) -> TraceFault
    ensures { result ≡ fault_of fault }
{
    match fault {
        AsmFault::BadLine(line) | AsmFault::UnknownLabel(line) | AsmFault::RepeatedLabel(line) => {
            TraceFault::Bad {
                place: line,
                kind: BadKind::Asm,
            }
        }
        AsmFault::Memory => TraceFault::Memory,
    }
}

/// Reads an input whole, beside built-in applications of these UUIDs.
pub fn read_content(
    alloc: Global,
    grammar: Grammar,
    input: &[u8],
    natives: &[Uuid],
) -> Result<Content, TraceFault>
    requires { length input.now ≤ 2 ^ 24 }
    ensures spelled { IfOk result (Spells grammar natives.now input.now) }
    ensures sound { IfOk result (IsSoundContent natives.now) }
    ensures bad { IfErr result (IsFaultOf grammar natives.now input.now) }
{
    match grammar {
        Grammar::Text => match read_trace(alloc, input, natives) {
            Ok(trace) => Ok(Content::Trace(trace)),
            Err(fault) => Err(fault),
        },
        Grammar::Records => match read_binary(alloc, input, natives) {
            Ok(trace) => Ok(Content::Trace(trace)),
            Err(fault) => Err(fault),
        },
        Grammar::Assembler => match assemble(alloc, input) {
            Ok(image) => Ok(Content::Image(image)),
            Err(fault) => Err(fault_of(fault)),
        },
    }
}
