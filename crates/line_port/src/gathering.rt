ghost use Rattle.std.specs.Prelude.{◌≡◌, ℕ, List, ◌++◌, OnOk};
ghost use Rattle.line_port.specs.Gathering.{Gathers};

use std::alloc::AllocError;

/// The most bytes that a line may have, its line feed not counted: a line that writes all of a processor's memory has fewer.
pub const LONGEST_LINE: usize = 8_388_736;

/// Adds a part to the line that it is of. A line that was too long before, or is so with this part, is let go of.
pub(crate) fn add_part(
    line: &mut Vec<u8>,
    is_long: &mut bool,
    part: &[u8],
) -> Result<(), AllocError>
    ensures { OnOk result (Gathers is_long.old line.old.items is_long.new line.new.items part.now) }
{
    if *is_long {
        return Ok(());
    }
    if part.len() > LONGEST_LINE || line.len() > LONGEST_LINE - part.len() {
        *is_long = true;
        line.clear();
        return Ok(());
    }
    line.extend_from_slice(part)
}
