//! How long the buffers of parameters are.
ghost use Rattle.std.specs.Prelude.{◌≤◌};
ghost use Rattle.group_solo.specs.Stepping.{IsShortEvent};

use group_model::GroupEvent;
use solo::longest_with_input;

/// How many bytes the longest buffer has, or that of an event.
pub(crate) fn longest_with_event(longest: usize, event: &GroupEvent) -> usize
    ensures least { longest ≤ result }
    ensures short { IsShortEvent result event.now }
{
    match event {
        GroupEvent::Open { input, .. } | GroupEvent::Invoke { input, .. } => {
            longest_with_input(longest, input)
        }
        GroupEvent::Close { .. }
        | GroupEvent::Cancel { .. }
        | GroupEvent::Seen { .. }
        | GroupEvent::Room { .. }
        | GroupEvent::Back { .. }
        | GroupEvent::Out { .. } => longest,
    }
}
