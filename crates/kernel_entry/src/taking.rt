//! A slot that a new call takes.
ghost use Rattle.std.specs.Prelude.{◌≡◌, ◌<◌, Some, length};
ghost use Rattle.thread_slots.specs.Slots.{lowest_free};
ghost use Rattle.kernel_entry.specs.Visiting.{HasTaken, cancels_by};

use kernel_state::{Cancellation, Parts, mark_calls};

/// Makes the lowest free slot active on the processor, with this beside it. A cancel marks the calls that it means, and
/// is none of them.
pub(crate) fn take_slot(parts: &mut Parts, cpu: u8, slot: u8, beside: Cancellation, is_cancel: bool)
    requires lowest { lowest_free parts.old.slots ≡ Some slot }
    requires beside { slot < length parts.old.cancellations.items }
    ensures { HasTaken parts.old parts.new cpu slot beside (cancels_by is_cancel beside) }
{
    if is_cancel {
        mark_calls(
            parts.cancellations.as_mut_slice(),
            beside.session,
            beside.cancel_id,
        );
    }
    parts.cancellations[usize::from(slot)] = beside;
    let _slot = parts.slots.enter(cpu);
}
