//! The job of a call that runs, taken on by so many steps, and to its stop.
ghost use Rattle.std.specs.Prelude.{◌≡◌, ◌≢◌, ◌+◌, ◌<◌, ◌≤◌, ◌^◌, ℕ};
ghost use Rattle.job_model.specs.Job.{Job as AnyJob};
ghost use Rattle.job_model.specs.Steps.{After, JobStop as AnyStop, Stop};
ghost use Rattle.kernel_state.specs.Calls.{bytes_of};
ghost use Rattle.rpc_cont.specs.Advancing.{CanAdvance, phase_after};
ghost use Rattle.rpc_cont.specs.Answering.{CanBeAnswered};
ghost use Rattle.rpc_cont.specs.Conts.{call_owner, job_of};
ghost use Rattle.rpc_cont.specs.Running.{IsStop, worked};

use rpc_cont::{Cont, ContStop, Phase};
use ta_step::Plain;

/// The steps of the next grant, of so many that are left.
fn next_grant(left: u128) -> u32
    ensures some { 0 < left → 0 < result }
    ensures most { result ≤ left }
{
    match u32::try_from(left) {
        Ok(steps) => steps,
        Err(_) => u32::MAX,
    }
}

/// Takes the job of a call on by so many steps, none of which stops it.
#[tactic(auto, using(crate::proofs::Grants::sets_out, crate::proofs::Grants::on_the_way, crate::proofs::Grants::arrives))]
pub fn run_on(cont: &mut Cont<Plain>, more: u128)
    requires runs { cont.old.phase ≡ Phase.Runs → CanAdvance bytes_of cont.old }
    requires room { cont.old.steps + more < 2 ^ 128 }
    ensures runs { (left : AnyJob) → cont.old.phase ≡ Phase.Runs → After (job_of bytes_of cont.old) more left
        → (left ≡ job_of bytes_of cont.new) × CanAdvance bytes_of cont.new }
    ensures rests { cont.old.phase ≢ Phase.Runs → cont.new ≡ cont.old }
    ensures stays { cont.new ≡ record (worked cont.old cont.new) { steps = cont.new.steps; phase = cont.new.phase } }
{
    let mut left = more;
    'grants: while left > 0 && cont.phase == Phase::Runs {
        let steps = next_grant(left);
        cont.advance(steps);
        left -= u128::from(steps);
    }
}

/// Takes the job of a call to its stop. Interrupted where it would take 2^128 steps.
#[tactic(auto, using(crate::proofs::Grants::begins_nearing, crate::proofs::Grants::comes_nearer, crate::proofs::Grants::comes_to_stop, crate::proofs::Grants::too_far))]
pub fn run_to_stop(cont: &mut Cont<Plain>) -> ContStop
    requires { CanAdvance bytes_of cont.old }
    ensures stops { (used : ℕ) (why : AnyStop) → Stop (job_of bytes_of cont.old) used why
        → cont.old.steps + used < 2 ^ 128
        → IsStop bytes_of (call_owner cont.new) cont.new (job_of bytes_of cont.new) why result
        × (cont.new.steps ≡ cont.old.steps + used) }
    ensures asks { result ≡ ContStop.Asks → CanBeAnswered bytes_of cont.new }
    ensures phase { cont.new.phase ≡ phase_after result }
    ensures stays { cont.new ≡ record (worked cont.old cont.new) { steps = cont.new.steps; phase = cont.new.phase } }
{
    let mut left = u128::MAX - cont.steps;
    'grants: loop {
        let steps = next_grant(left);
        let stop = cont.advance(steps);
        if stop != ContStop::Interrupted || steps == 0 {
            return stop;
        }
        left -= u128::from(steps);
    }
}
