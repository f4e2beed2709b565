//! What holds of each kernel that a legal history comes to.
ghost use Rattle.kernel_model.specs.Sound.{Always, AreAsMany, AreAtWork, OthersStayAway, StepsAreGranted, unmarked_at};
ghost use Rattle.kernel_model.specs.SoundNumbers.{AreNumbered, NumbersRise};
ghost use Rattle.kernel_model.specs.SoundOrder.{AreInOrder};
ghost use Rattle.kernel_model.specs.SoundWaiters.{AreWaiters};
ghost use Rattle.kernel_model.specs.SoundJobs.{ExitsCome};
ghost use Rattle.kernel_model.specs.SoundCalls.{AreJoined};
ghost use Rattle.kernel_model.specs.SoundMemory.{AreInMemory, pages_used};
ghost use Rattle.kernel_model.specs.Instances.{free_pages};
ghost use Rattle.kernel_model.specs.SoundPlaces.{HaveTheirPlaces};
ghost use Rattle.kernel_model.specs.SoundRequests.{HaveFittingRequests};
ghost use Rattle.kernel_model.specs.SoundPins.{ArePinned};
ghost use Rattle.kernel_model.specs.SoundInstances.{AreFew};
ghost use Rattle.kernel_model.specs.SoundSessions.{HaveTheirInstances};
ghost use Rattle.kernel_model.specs.SoundSteps.{StepsAreOfEntries};
ghost use Rattle.kernel_model.specs.SoundPages.{HaveTheirPages};
ghost use Rattle.std.specs.Prelude.{◌≡◌, ◌+◌, ◌≤◌, length};
ghost use Rattle.session_table.specs.Waiters.{IsLine};

/// A processor that is inside for a slot works on its call, and the processor that works on a call is inside for its
/// slot; a call is suspended for its own client.
pub fn processors_work_on_their_slots()
    ensures { Always (λ boot kernel. AreAtWork kernel) }
{}

/// The events of other processors leave a processor's part and its call as they are, but for the call's mark.
pub fn others_stay_away()
    ensures { OthersStayAway }
{}

/// There are as many slots and processors as the kernel was booted with.
pub fn slots_are_as_many()
    ensures { Always AreAsMany }
{}

/// A call has done at most a million steps for each event so far.
pub fn steps_are_granted()
    ensures { StepsAreGranted }
{}

/// A call has done at most a million steps for each entry so far.
pub fn steps_are_of_entries()
    ensures { StepsAreOfEntries }
{}

/// The numbers of sessions, instances, calls and waiters were given, and fit 32 bits.
pub fn numbers_are_given()
    ensures { Always (λ boot kernel. AreNumbered (unmarked_at kernel.slots) kernel.tables) }
{}

/// No event lowers the numbers that the next session and the next instance get.
pub fn numbers_rise()
    ensures { NumbersRise }
{}

/// The tables are in the order of their numbers, with at most 64 sessions and 64 registered buffers.
pub fn tables_are_in_order()
    ensures { Always (λ boot kernel. AreInOrder kernel.tables) }
{}

/// The waiters are the calls that wait, each once.
pub fn waiters_are_calls()
    ensures { Always (λ boot kernel. AreWaiters (unmarked_at kernel.slots) kernel.tables.waiters) }
{}

/// A processor that is inside has an exit.
pub fn exits_come()
    ensures { Always ExitsCome }
{}

/// Calls, sessions and instances fit together: a call that works holds its instance, and its session is kept.
pub fn calls_fit_their_tables()
    ensures { Always (λ boot kernel. AreJoined (unmarked_at kernel.slots) kernel.tables) }
{}

/// Each call waits in a slot of its own, and so at most sixteen do.
pub fn waiters_are_a_line()
    ensures { Always (λ boot kernel. IsLine kernel.tables.waiters) }
{}

/// A call that works has its instance's memory, an instance that nobody holds has it itself, and the frames suffice.
pub fn memory_is_kept()
    ensures { Always (λ boot kernel. AreInMemory boot (unmarked_at kernel.slots) kernel.tables) }
{}

/// Where a call writes lies in RAM: its argument, the places of its parameters, its area, and its buffer.
pub fn calls_have_their_places()
    ensures { Always (λ boot kernel. HaveTheirPlaces (unmarked_at kernel.slots)) }
{}

/// What a call asks for fits a message, with its payload.
pub fn requests_fit()
    ensures { Always (λ boot kernel. HaveFittingRequests (unmarked_at kernel.slots)) }
{}

/// Only slots with calls pin registered buffers.
pub fn pins_are_of_calls()
    ensures { Always (λ boot kernel. ArePinned (unmarked_at kernel.slots) kernel.tables) }
{}

/// At most one instance is kept for each session, and one that each of sixteen applications keeps alive.
pub fn instances_are_few()
    ensures { Always (λ boot kernel. AreFew kernel.tables) }
{}

/// At most 80 instances are kept.
pub fn instances_are_at_most_80()
    ensures { Always (λ boot kernel. length kernel.tables.instances ≤ 80) }
{}

/// Each frame is free, or one of an instance that isn't dead.
pub fn frames_are_free_or_used()
    ensures { Always (λ boot kernel.
        free_pages boot kernel.tables.instances + pages_used boot kernel.tables.instances ≡ boot.frames) }
{}

/// A machine's memory is the pages of its image.
pub fn machines_have_their_pages()
    ensures { Always (λ boot kernel. HaveTheirPages (unmarked_at kernel.slots)) }
{}

/// A session that was opened keeps its instance, dead or not.
pub fn sessions_keep_their_instances()
    ensures { Always (λ boot kernel. HaveTheirInstances kernel.tables) }
{}
