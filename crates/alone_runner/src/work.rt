//! The made trace, played and summed up.

ghost use Rattle.std.specs.Prelude.{◌≡◌, ◌≤◌, IfOk, Some};
ghost use Rattle.made_play.specs.Summary.{summary_of};

use crate::digesting::digest_play;
use crate::summary::summary_line;
use base::NoMemory;
use made_play::{made_plays_end, made_traces_are_sound};
use native_tas::Natives;
use std::alloc::Global;
use word_parts::Stop;
use workload::make_work;

/// The line that sums up the play of the trace that a seed makes with so many calls, without built-in applications.
pub fn summary(alloc: Global, seed: u64, count: u32) -> Result<Vec<u8>, NoMemory>
    requires { count ≤ 65536 }
    ensures { IfOk result (λ line. summary_of seed count ≡ Some line.items) }
{
    made_traces_are_sound();
    made_plays_end();
    let trace = make_work(alloc, seed, count)?;
    let natives = Natives::new(alloc);
    match digest_play(alloc, &natives, trace) {
        Ok(told) => Ok(summary_line(alloc, seed, count, &told.counts, &told.digest)?),
        Err(Stop::Memory) => Err(NoMemory),
        Err(Stop::Full | Stop::Failed) => unreachable!(),
    }
}
