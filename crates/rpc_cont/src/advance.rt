//! How a call goes on, by so many steps.
ghost use Rattle.std.specs.Prelude.{◌≡◌, ◌+◌, ◌<◌, ◌≤◌, ◌^◌, List, ℕ, length, Some, None, IsSomeAnd};
ghost use Rattle.job_model.specs.Owner.{owner_of};
ghost use Rattle.job_model.specs.declared.entry_point.EntryPoint.{EntryPoint as AnyPoint};
ghost use Rattle.job_model.specs.Job.{Nothing, of_application};
ghost use Rattle.job_model.specs.Steps.{after_run, grant_of, run_for};
ghost use Rattle.native_tas.specs.Relation.{answer_of};
ghost use Rattle.rpc_cont.specs.Advancing.{CanAdvance, CanRun, IsAdvance, phase_after, turn_of};
ghost use Rattle.rpc_cont.specs.Answering.{CanBeAnswered};
ghost use Rattle.rpc_cont.specs.Conts.{job_at, job_for, job_of, job_with, kept_params, memory_size};
ghost use Rattle.rpc_cont.specs.Running.{IsRun, IsRunning, IsTurn, worked};
ghost use Rattle.rpc_cont.specs.Shapes.{IsShaped};
ghost use Rattle.rpc_cont.specs.Stopped.{HasRunTo};
ghost use Rattle.ta_isa.specs.Spelling.{IsValid};
ghost use Rattle.ta_step.specs.Machine.{state_of};
ghost use Rattle.ta_step.specs.Requests.{NamesRange};
ghost use Rattle.ta_step.specs.Runs.{request_of, runs};
ghost use Rattle.ta_step.specs.Shape.{SameShape};

use crate::app::ContApp;
use crate::cont::Cont;
use crate::stop::ContStop;
use job_model::EntryPoint;
use native_tas::NativeApp;
use ta_isa::Image;
use ta_step::{Machine, Stop, TaMemory};
use uuid::Uuid;

/// Runs a machine, with what the laws of runs say of it.
fn run_machine<M: TaMemory>(machine: &mut Machine<M>, image: &Image, steps: u32) -> (Stop, u32)
    requires valid { IsValid image.now }
    requires unasked { (state_of M.bytes machine.old).asked ≡ None }
    ensures runs { runs image.now.code steps (state_of M.bytes machine.old)
        ≡ Some (record { stop = result.0; steps = result.1; state = state_of M.bytes machine.new }) }
    ensures asked { (state_of M.bytes machine.new).asked ≡ request_of result.0 }
    ensures named { NamesRange result.0 (state_of M.bytes machine.new) }
    ensures used { (result.1 ≤ steps) × (0 < steps → 0 < result.1) }
    ensures same { SameShape (state_of M.bytes machine.old) (state_of M.bytes machine.new) }
{
    machine.run(image, steps)
}

impl<M: TaMemory + Drop> Cont<M> {
    /// Takes the call on by at most so many steps: its entry points run in their order, up to what stops it. What it
    /// asks for and needs no reply to is answered on the way. Takes no memory.
    pub fn advance(&mut self, steps: u32) -> ContStop
        requires runs { CanAdvance M.bytes self.old }
        requires steps { self.old.steps + steps < 2 ^ 128 }
        ensures advances { IsSomeAnd (grant_of steps (job_of M.bytes self.old))
            (λ grant. IsAdvance M.bytes self.new.app self.new self.old.steps steps grant result) }
        ensures asks { result ≡ ContStop.Asks → CanBeAnswered M.bytes self.new }
        ensures phase { self.new.phase ≡ phase_after result }
        ensures shape { IsShaped M.bytes self.new }
        ensures size { memory_size M.bytes self.new ≡ memory_size M.bytes self.old }
        ensures stays { self.new ≡ record (worked self.old self.new) { steps = self.new.steps; phase = self.new.phase } }
    {
        let app = self.app.take();
        let stop = self.advance_as(&app, steps);
        self.app = app;
        self.phase = stop.phase();
        stop
    }

    /// The same as a call of this application.
    fn advance_as(&mut self, app: &Option<ContApp>, steps: u32) -> ContStop
        requires runs { CanRun M.bytes app.now self.old }
        requires steps { self.old.steps + steps < 2 ^ 128 }
        ensures advances { IsSomeAnd (grant_of steps (job_for M.bytes app.now self.old))
            (λ grant. IsAdvance M.bytes app.now self.new self.old.steps steps grant result) }
        ensures size { memory_size M.bytes self.new ≡ memory_size M.bytes self.old }
        ensures stays { self.new ≡ record (worked self.old self.new) { steps = self.new.steps } }
    {
        let Some(point) = self.point else {
            return ContStop::Ended(self.result);
        };
        match app {
            Some(ContApp::Image { uuid, image }) => self.run(*uuid, image, steps),
            Some(ContApp::Native(native)) => match point {
                EntryPoint::Invoke { func } => self.run_native(native, func, steps),
                EntryPoint::Create | EntryPoint::Open | EntryPoint::Close | EntryPoint::Destroy => {
                    ContStop::Ended(self.result)
                }
            },
            Some(ContApp::Dead { .. }) | None => ContStop::Ended(self.result),
        }
    }

    /// The same of an image, which runs where the call has a machine.
    fn run(&mut self, uuid: Uuid, image: &Image, steps: u32) -> ContStop
        requires running { IsRunning M.bytes self.old }
        requires image { IsValid image.now }
        requires steps { self.old.steps + steps < 2 ^ 128 }
        ensures runs { IsSomeAnd (run_for steps (job_at M.bytes (owner_of uuid self.old.key) image.now self.old))
            (λ grant. IsRun M.bytes (owner_of uuid self.old.key) image.now self.new self.old.steps steps grant result) }
        ensures size { memory_size M.bytes self.new ≡ memory_size M.bytes self.old }
        ensures stays { self.new ≡ record (worked self.old self.new) { steps = self.new.steps } }
    {
        let mut left = steps;
        while left > 0 {
            let (stop, used) = self.turn(uuid, image, left);
            if let Some(stop) = stop {
                return stop;
            }
            left -= used;
        }
        ContStop::Interrupted
    }

    /// Runs the machine up to a stop, and serves that. Answers why the call stopped, if it did, and how many steps
    /// were used.
    fn turn(&mut self, uuid: Uuid, image: &Image, steps: u32) -> (Option<ContStop>, u32)
        requires running { IsRunning M.bytes self.old }
        requires image { IsValid image.now }
        requires some { 0 < steps }
        requires steps { self.old.steps + steps < 2 ^ 128 }
        ensures turns { IsSomeAnd self.old.machine (λ m. (here : AnyPoint) → self.old.point ≡ Some here
            → IsSomeAnd (turn_of (job_with Nothing (owner_of uuid self.old.key) self.old) image.now here (state_of M.bytes m) steps)
            (λ turn. (turn.0 ≡ result.1) × IsTurn M.bytes (owner_of uuid self.old.key) image.now self.new turn.1 result.0)) }
        ensures some { 0 < result.1 }
        ensures most { result.1 ≤ steps }
        ensures used { self.new.steps ≡ self.old.steps + result.1 }
        ensures size { memory_size M.bytes self.new ≡ memory_size M.bytes self.old }
        ensures stays { self.new ≡ record (worked self.old self.new) { steps = self.new.steps } }
    {
        let Some(machine) = &mut self.machine else {
            unreachable!();
        };
        let (stop, used) = run_machine(machine, image, steps);
        self.steps += u128::from(used);
        let stop = self.stopped(uuid, image, stop);
        (stop, used)
    }

    /// Serves the stop that its machine has run to. Answers why the call stopped, if it did.
    fn stopped(&mut self, uuid: Uuid, image: &Image, stop: Stop) -> Option<ContStop>
        requires { HasRunTo M.bytes self.old stop }
        ensures serves { IsSomeAnd self.old.machine (λ m. (here : AnyPoint) → self.old.point ≡ Some here
            → IsSomeAnd (after_run (job_with Nothing (owner_of uuid self.old.key) self.old) image.now here (state_of M.bytes m) stop)
            (λ turn. IsTurn M.bytes (owner_of uuid self.old.key) image.now self.new turn result)) }
        ensures size { memory_size M.bytes self.new ≡ memory_size M.bytes self.old }
        ensures stays { self.new ≡ worked self.old self.new }
    {
        match stop {
            Stop::Ended { result, context } => {
                let Some(machine) = self.machine.take() else {
                    unreachable!();
                };
                self.returned(image, machine, result, context)
            }
            Stop::Panicked(code) => Some(self.end_by_panic(code)),
            Stop::Asks(request) => self.ask(uuid, request),
            Stop::Interrupted => None,
        }
    }

    /// The same of a built-in application: an invoke of this function is one step.
    fn run_native(&mut self, native: &NativeApp, func: u32, steps: u32) -> ContStop
        requires steps { self.old.steps + steps < 2 ^ 128 }
        ensures none { steps ≡ 0 → (result ≡ ContStop.Interrupted) × (self.new ≡ self.old) }
        ensures one { 0 < steps → (let answer = answer_of native.now.relation func (kept_params self.old.params) in
            (result ≡ ContStop.Ended (of_application answer.0))
            × (self.new ≡ record self.old { params = Some answer.1; result = of_application answer.0; steps = self.old.steps + 1 })) }
    {
        if steps == 0 {
            return ContStop::Interrupted;
        }
        let mut params = self.take_params();
        let code = native.relation.answer(func, &mut params);
        self.answers_with(code, params);
        self.steps += 1;
        ContStop::Ended(self.result)
    }
}
