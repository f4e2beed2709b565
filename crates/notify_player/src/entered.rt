//! How a processor came in, and what its exit asks of the desk.

ghost use Rattle.std.specs.Prelude.{◌≡◌, [], MatchOption};
ghost use Rattle.std.specs.Option.{option_copied};
ghost use Rattle.notify_play.specs.Duty.{came_with, duty_of};
ghost use Rattle.desk_answers.specs.Duties.{duty_in};
ghost use Rattle.notify_player.specs.Asking.{HasArgument, IsLastOfLegal, IsToldAlike, came_by};

use desk_answers::{Duty, duty_of};
use event_journal::Event;
use ns_ram::Read;
use smc_abi::Regs;

/// What an exit asks of the desk.
#[derive(Clone, Copy)]
pub struct Asked {
    /// The registers that its processor came in with.
    pub caller: Regs,
    pub duty: Duty,
}

/// The registers and the reads of an entry, if it is one.
fn entry_in(last: Option<&Event>) -> Option<(Regs, &[Read])>
    ensures { MatchOption result (came_by (option_copied last.entry) ≡ came_with [] [])
        (λ came. came_by (option_copied last.entry) ≡ came_with came.0.a came.1.now) }
{
    match last {
        Some(Event::Entry { regs, reads, .. }) => Some((*regs, reads.as_slice())),
        Some(Event::Exit { .. }) | None => None,
    }
}

/// What the exit of a processor asks by its last entry, where the kernel says this in a0. One that never came in asks nothing.
pub fn asked_by(last: Option<&Event>, a0: u32) -> Asked
    requires { IsLastOfLegal (option_copied last) }
    ensures duty { duty_in result.duty ≡ duty_of (came_by (option_copied last.entry)) a0 }
    // Nothing that is told depends on more of the entry.
    ensures caller { IsToldAlike (came_by (option_copied last.entry)).regs result.caller.a (duty_in result.duty) }
    ensures argument { HasArgument (duty_in result.duty) }
{
    let Some((caller, reads)) = entry_in(last) else {
        return Asked {
            caller: Regs { a: [0; 8] },
            duty: Duty::Nothing,
        };
    };
    let duty = duty_of(&caller, reads, a0);
    Asked { caller, duty }
}
