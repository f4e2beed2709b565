//! What C is handed of an answer.
ghost use Rattle.std.specs.Prelude.{◌≡◌};
ghost use Rattle.core_c.specs.HandingOut.{HandsOut};

use crate::calling::Outcome;

/// The status of an output that is longer than its buffer.
const CUT: u32 = 8;

/// Puts an output into a buffer, or its front where it is longer; and writes its length.
pub fn hand_out(outcome: &Outcome, buffer: &mut [u8], written: &mut usize) -> u32
    ensures { HandsOut outcome.now.status outcome.now.output.items buffer.old buffer.new written.new result }
{
    let output = outcome.output.as_slice();
    *written = output.len();
    if output.len() <= buffer.len() {
        buffer[..output.len()].copy_from_slice(output);
        u32::from(outcome.status.number())
    } else {
        buffer.copy_from_slice(&output[..buffer.len()]);
        CUT
    }
}
