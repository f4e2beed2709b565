//! All of it: a core is shared, each processor plays its items in a thread, and the core is had back.
ghost use Rattle.std.specs.Prelude.{◌≡◌, List, [], IfOk, length};
ghost use Rattle.kernel_model.specs.Application.{Native};
ghost use Rattle.kernel_model.specs.History.{IsLegal};
ghost use Rattle.kernel_state.specs.Meaning.{booted_of, events_of, terms_of};
ghost use Rattle.kernel_state.specs.Terms.{kept_terms};
ghost use Rattle.ta_isa.specs.declared.boot.Boot.{Boot};
ghost use Rattle.trace_text.specs.declared.trace.Trace.{Trace};
ghost use Rattle.threads_play.specs.Played.{IsOfTrace, TakeTurns, WasPlayed};

use crate::ends::{passes_of, some_lacked_memory, some_refused, text_of};
use crate::jobs::jobs_of;
use crate::laws::ends_are_played;
use crate::threads::{Lent, play_each};
use base::NoMemory;
use kernel_state::Core;
use normal_cpus::share;
use ns_ram::Lane;
use ports::Pace;
use std::alloc::Global;
use std::sync::Wait;
use std::thread::Threads;
use trace_text::Item;

/// What the processors of a trace have come to.
#[derive(Drop)]
pub struct ThreadsPlay {
    /// The core, with the one history of all.
    pub core: Core,
    /// The blocks, one behind the other, by the processors' numbers.
    pub text: Vec<u8>,
    /// Whether an entry was refused since all entries would then have read more than 2^28 bytes. Its processor did nothing more, and
    /// the others went on.
    pub refused: bool,
}

/// Plays the items of a trace on a core that keeps its events, and where nothing has happened, each processor in a thread of its
/// own, over these lanes, one for each processor by its number, and joins them all. Work for which no thread can be started is done
/// by the caller.
///
/// The pace is called by each processor between the entry and the exit of each of its calls, under no turn.
///
/// It may wait for the threads, and they for their turns.
pub fn play_on_threads<R: Threads + Wait + Sync, G: Pace + Sync>(
    rt: &R,
    alloc: Global,
    core: Core,
    lanes: Vec<Lane>,
    items: &[Item],
    pace: &G,
) -> Result<ThreadsPlay, NoMemory>
    requires fresh { events_of core ≡ [] }
    requires kept { terms_of core ≡ kept_terms }
    requires lanes { length lanes.items ≡ (booted_of core).cpus }
    requires turns { TakeTurns items.now }
    ensures boot { IfOk result (λ play. booted_of play.core ≡ booted_of core) }
    ensures legal { IfOk result (λ play. IsLegal (booted_of core) (events_of play.core)) }
    ensures played { IfOk result (λ play. (natives : List Native) (boot : Boot) (trace : Trace)
        → IsOfTrace (booted_of core) lanes.items items.now natives boot trace
        → WasPlayed natives boot trace (events_of play.core) play.text.items play.refused) }
{
    ends_are_played();
    let (shared, passes) = match share(alloc, core) {
        Ok(made) => made,
        Err((_core, error)) => return Err(error),
    };
    let jobs = jobs_of(alloc, passes, lanes)?;
    let lent = Lent {
        rt,
        alloc,
        shared: &shared,
        items,
        pace,
    };
    let ends = play_each(&lent, jobs)?;
    if some_lacked_memory(ends.as_slice()) {
        return Err(NoMemory);
    }
    let text = text_of(alloc, ends.as_slice())?;
    let refused = some_refused(ends.as_slice());
    let core = shared.close(passes_of(alloc, ends)?);
    Ok(ThreadsPlay {
        core,
        text,
        refused,
    })
}
