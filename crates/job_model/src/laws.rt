//! What holds of the definitions themselves.
ghost use Rattle.std.specs.Prelude.{◌≡◌, ℕ, ◌+◌, ◌-◌, ◌≤◌, Some};
ghost use Rattle.std.specs.Option.{option_and_then};
ghost use Rattle.job_model.specs.Examples.{Examples};
ghost use Rattle.job_model.specs.Fitting.{RequestsFit};
ghost use Rattle.job_model.specs.Flag.{CancelStaysSeen};
ghost use Rattle.job_model.specs.Job.{Job, Machine};
ghost use Rattle.job_model.specs.declared.entry_point.EntryPoint.{EntryPoint};
ghost use Rattle.job_model.specs.Taken.{AnswersAreTaken};
ghost use Rattle.job_model.specs.Steps.{After, Grant, IsGrant, JobStop, Stop, Stopped, after, after_run, grant_of};
ghost use Rattle.job_model.specs.Steps.{grant_after, run_for, stop_at};
ghost use Rattle.ta_isa.specs.declared.image.Image.{Image as AnyImage};
ghost use Rattle.ta_step.specs.Runs.{Ran, runs};
ghost use Rattle.ta_step.specs.State.{State};

/// So many steps and then so many more are their sum.
pub fn steps_add_up()
    ensures { (job : Job) (m n : ℕ) → after (m + n) job ≡ option_and_then (after n) (after m job) }
{}

/// Where some steps don't stop a job, those behind them do just where they stop what is left of it.
pub fn stops_add_up()
    ensures { (job left : Job) (m n : ℕ) → After job m left → stop_at (m + n) job ≡ stop_at n left }
{}

/// A job has at most one stop.
pub fn one_stop()
    ensures { (job : Job) (m n : ℕ) (first second : JobStop) → Stop job m first → Stop job n second
        → (m ≡ n) × (first ≡ second) }
{}

/// A grant leaves the job after all of its steps where none of them stops it, and else comes to its stop.
pub fn grants_take_on()
    ensures { (job : Job) (n : ℕ) (grant : Grant) → grant_of n job ≡ Some grant → IsGrant job n grant }
{}

/// A grant that reaches a job's stop comes to it.
pub fn grants_reach_stops()
    ensures { (job : Job) (n m : ℕ) (why : JobStop) → m ≤ n → Stop job m why → grant_of n job ≡ Some (Stopped m why) }
{}

/// A grant of steps to a job whose machine runs is a run of that machine, and then the rest of the grant to what the
/// run leaves.
pub fn grants_run_machines()
    ensures { (job : Job) (image : AnyImage) (point : EntryPoint) (machine : State) (n : ℕ) (ran : Ran)
        → runs image.code n machine ≡ Some ran
        → run_for n (record job { body = Machine image point machine })
        ≡ option_and_then (grant_after ran.steps (n - ran.steps)) (after_run job image point ran.state ran.stop) }
{}

/// A job that stops with a request waits for its answer, and takes each answer: it goes on, or asks for something
/// else.
pub fn answers_are_taken()
    ensures { AnswersAreTaken }
{}

/// What a job asks for fits a message, at its stop and behind each answer: a request that a message has room for, with
/// its payload.
pub fn requests_fit()
    ensures { RequestsFit }
{}

/// Neither a step nor an answer takes back from a job that its call has seen that it was cancelled.
pub fn cancel_stays_seen()
    ensures { CancelStaysSeen }
{}

/// Examples of the definitions, worked out by hand.
pub fn worked_examples()
    ensures { Examples }
{}
