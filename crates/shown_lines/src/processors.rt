//! The processors that are inside.

ghost use Rattle.std.specs.Prelude.{◌≡◌, ◌++◌, OnOk, map};
ghost use Rattle.kernel_state.specs.Processors.{processor_of};
ghost use Rattle.live_play.specs.State.{inside_line, inside_lines};

use answer_lines::push_numbered;
use kernel_state::Processor;
use std::alloc::AllocError;

/// Appends the line of a processor, where it is inside.
fn push_inside(text: &mut Vec<u8>, cpu: usize, processor: &Processor) -> Result<(), AllocError>
    ensures { OnOk result (text.new.items ≡ text.old.items ++ inside_line cpu (processor_of processor.now)) }
{
    if processor.is_inside() {
        push_numbered(text, b"inside ", cpu as u64)?;
        text.push(b'\n')?;
    }
    Ok(())
}

/// Appends a line for each processor that is inside.
pub(crate) fn push_insides(text: &mut Vec<u8>, processors: &[Processor]) -> Result<(), AllocError>
    ensures { OnOk result (text.new.items ≡ text.old.items ++ inside_lines (map processor_of processors.now)) }
{
    for (cpu, processor) in processors.iter().enumerate() {
        push_inside(text, cpu, processor)?;
    }
    Ok(())
}
