//! The top call as a function of C, over bytes that C lends: a static library, of which `include/tulgexar.h` is the
//! header.
//!
//! What C has to keep to stands there; nothing of it is tested here.
//!
//! It touches the bytes that C lends and RAM of its own, and no stream and no thread.
//!
//! # What is proved
//!
//! - `tulgexar_run` makes one call of `run_alone`, beside the digest application and the driver of value 1, over a
//!   source and a sink in memory that count no fault. Its words are what stands between the spaces of the line, or none
//!   where that is not UTF-8 (`texts_in`). The clauses of `run` hold of its status and of all that it put (`IsRun`),
//!   ReadFault and WriteFault never come, and want of memory alone may come before the call.
//! - What C is handed (`HandsOut`): the length of the whole output; where it fits, the output at the front of the
//!   buffer, the rest as it was, and the status's number; else its front, and 8.
//! - What C has to keep to, and that the header says what the source says, is trusted (`embedding.md`). Tested outside
//!   the gate, with a C compiler: `tools/embed.py` compares what the bench and the misuses of `embed/` print.
#![tactic(auto)]

ghost use Rattle.core_c.specs.HandingOut.{IsAnswered};

mod calling;
mod growing_sink;
mod handing_out;
mod slice_source;
mod words;

use crate::calling::outcome_of;
use crate::handing_out::hand_out;
use std::alloc::Global;

/// The top call with the words of a line, parted by single spaces, over these bytes, beside the applications that are
/// built in. Its output goes into the buffer, and the length of the whole output into `written`. The number of its status
/// is answered, or 8 where the output is longer than the buffer, which then has its front.
#[unsafe(no_mangle)]
pub extern "C" fn tulgexar_run(
    alloc: Global,
    line: &[u8],
    input: &[u8],
    buffer: &mut [u8],
    written: &mut usize,
) -> u32
    ensures { IsAnswered line.now input.now buffer.old buffer.new written.new result }
{
    let outcome = outcome_of(alloc, line, input);
    hand_out(&outcome, buffer, written)
}
