//! Each processor has a thread of its own.
ghost use Rattle.std.specs.Prelude.{◌≡◌, ◌<◌, ℕ, List, All, IfOk, length, slice_index_or};
ghost use Rattle.normal_cpus.specs.Sharing.{CpuPass};
ghost use Rattle.threads_play.specs.declared.ending.CpuEnd.{CpuEnd};
ghost use Rattle.threads_play.specs.Work.{CanPlay, HasPlayed};

use crate::cpu_playing::play_cpu;
use crate::ending::CpuEnd;
use normal_cpus::{CpuPass, SharedCore};
use ns_ram::Lane;
use ports::Pace;
use std::alloc::{AllocError, Global};
use std::sync::Wait;
use std::thread;
use std::thread::Threads;
use trace_text::Item;

/// What all threads borrow.
#[derive(Drop)]
pub struct Lent<'a, R, G> {
    pub rt: &'a R,
    pub alloc: Global,
    pub shared: &'a SharedCore,
    pub items: &'a [Item],
    pub pace: &'a G,
}

impl<'a, R: Wait, G: Pace> Lent<'a, R, G> {
    /// This pass, with its RAM, plays its processor's own items.
    fn play(&self, job: (CpuPass, Lane)) -> CpuEnd
        requires { CanPlay self.now.shared.now self.now.items.now job }
        ensures { HasPlayed self.now.shared.now self.now.items.now job result }
    {
        let (pass, lane) = job;
        play_cpu(
            self.rt,
            self.alloc,
            self.shared,
            pass,
            lane,
            self.items,
            self.pace,
        )
    }
}

/// Each of these passes, with its RAM, plays its processor's own items in a thread. All have ended when it returns.
pub fn play_each<R: Threads + Wait + Sync, G: Pace + Sync>(
    lent: &Lent<'_, R, G>,
    jobs: Vec<(CpuPass, Lane)>,
) -> Result<Vec<CpuEnd>, AllocError>
    requires { All (CanPlay lent.now.shared.now lent.now.items.now) jobs.items }
    ensures len { IfOk result (λ ends. length ends.items ≡ length jobs.items) }
    ensures each { IfOk result (λ ends. (i : ℕ) (job : CpuPass × List ℕ) (end : CpuEnd) → i < length jobs.items
        → HasPlayed lent.now.shared.now lent.now.items.now (slice_index_or jobs.items i job) (slice_index_or ends.items i end)) }
{
    let ends = thread::map_vec(
        lent.rt,
        jobs,
        &|job: (CpuPass, Lane)| -> CpuEnd
            requires { CanPlay lent.now.shared.now lent.now.items.now job }
            ensures { HasPlayed lent.entry.now.shared.now lent.entry.now.items.now job result }
        { lent.play(job) },
    )?;
    Ok(ends)
}
