//! How an entry point begins, and what its return leaves.
ghost use Rattle.std.specs.Prelude.{◌≡◌, List, ℕ, [], map, length, Some, None, IsSomeAnd};
ghost use Rattle.job_model.specs.Owner.{Owner};
ghost use Rattle.job_model.specs.declared.entry_point.EntryPoint.{EntryPoint as AnyPoint};
ghost use Rattle.job_model.specs.Job.{Nothing, image_job_at, of_application};
ghost use Rattle.job_model.specs.Point.{first_registers, params_at, params_beside};
ghost use Rattle.job_model.specs.Steps.{on_to_next, job_after_return, still_to_come};
ghost use Rattle.rpc_cont.specs.Conts.{job_at, job_with, kept_params, memory_size};
ghost use Rattle.rpc_cont.specs.Running.{HasReady, IsIdle, IsTurn, worked};
ghost use Rattle.ta_params.specs.CopiedParams.{type_word};
ghost use Rattle.ta_step.specs.Machine.{state_of};
ghost use Rattle.ta_step.specs.State.{State};

use crate::cont::Cont;
use crate::stop::ContStop;
use job_model::EntryPoint;
use ta_isa::Image;
use ta_params::codes::TEE_SUCCESS;
use ta_params::{CallResult, CopiedParams};
use ta_step::{Machine, TaMemory};

impl<M: TaMemory + Drop> Cont<M> {
    /// Begins an entry point of the image over its instance's memory: masked, and with the flag as the call has seen
    /// it. Takes no memory.
    pub fn begin(&mut self, image: &Image, memory: M, point: EntryPoint)
        requires { self.old.machine ≡ None }
        ensures begins { (owner : Owner) → job_at M.bytes owner image.now self.new
            ≡ image_job_at image.now (M.bytes memory) self.old.cancelled (job_with Nothing owner self.old)
            point self.old.points.items }
        ensures ready { HasReady M.bytes self.new.cancelled self.new.point self.new.machine }
        ensures size { memory_size M.bytes self.new ≡ length (M.bytes memory) }
        ensures stays { self.new ≡ record self.old { params = self.new.params; point = self.new.point; machine = self.new.machine } }
    {
        let first = self.first_registers(point);
        let params = self.params_for(point);
        let mut machine = Machine::start(image, memory, params, self.login, point.number(), first);
        if self.cancelled {
            machine.see_cancel();
        }
        self.point = Some(point);
        self.machine = Some(machine);
    }

    /// The first registers as the entry point begins.
    fn first_registers(&self, point: EntryPoint) -> [u32; 3]
        ensures { result ≡ first_registers point (kept_params self.now.params) self.now.context }
    {
        match point {
            EntryPoint::Create | EntryPoint::Destroy => [0, 0, 0],
            EntryPoint::Open => [self.types(), 0, 0],
            EntryPoint::Invoke { func } => [func, self.types(), self.context],
            EntryPoint::Close => [0, 0, self.context],
        }
    }

    /// The types of the parameters.
    fn types(&self) -> u32
        ensures { result ≡ type_word (kept_params self.now.params) }
    {
        match &self.params {
            Some(params) => params.type_word(),
            None => 0,
        }
    }

    /// The parameters that the entry point has, taken out of the call.
    fn params_for(&mut self, point: EntryPoint) -> CopiedParams
        ensures has { result ≡ params_at point (kept_params self.old.params) }
        ensures beside { kept_params self.new.params ≡ params_beside point (kept_params self.old.params) }
        ensures stays { self.new ≡ record self.old { params = self.new.params } }
    {
        match point {
            EntryPoint::Open | EntryPoint::Invoke { .. } => self.take_params(),
            EntryPoint::Create | EntryPoint::Close | EntryPoint::Destroy => CopiedParams::none(),
        }
    }

    /// Takes the parameters out of the call.
    pub(crate) fn take_params(&mut self) -> CopiedParams
        ensures params { result ≡ kept_params self.old.params }
        ensures stays { self.new ≡ record self.old { params = None } }
    {
        match self.params.take() {
            Some(params) => params,
            None => CopiedParams::none(),
        }
    }

    /// Answers with this code of the application, and the parameters that it leaves.
    pub(crate) fn answers_with(&mut self, code: u32, params: CopiedParams)
        ensures { self.new ≡ record self.old { result = of_application code; params = Some params } }
    {
        self.result = CallResult::of_application(code);
        self.params = Some(params);
    }

    /// Takes what its entry point returned: a create that fails, and each open and invoke, give the result, an open
    /// the context too. No entry point comes behind a create that fails, or an open that succeeds.
    fn take_result(&mut self, params: CopiedParams, r0: u32, r1: u32)
        ensures takes { (owner : Owner) (point : AnyPoint) → self.old.point ≡ Some point
            → (let here = point in let job = job_with Nothing owner self.old in
            job_with Nothing owner self.new ≡ record (job_after_return job here params r0 r1) { points = still_to_come here r0 job.points }) }
        ensures stays { self.new ≡ record self.old
            { result = self.new.result; context = self.new.context; params = self.new.params; points = self.new.points } }
    {
        match self.point {
            Some(EntryPoint::Create) => {
                if r0 != TEE_SUCCESS {
                    self.result = CallResult::of_application(r0);
                    self.points.clear();
                }
            }
            Some(EntryPoint::Open) => {
                self.answers_with(r0, params);
                self.context = r1;
                if r0 == TEE_SUCCESS {
                    self.points.clear();
                }
            }
            Some(EntryPoint::Invoke { .. }) => self.answers_with(r0, params),
            Some(EntryPoint::Close | EntryPoint::Destroy) | None => {}
        }
    }

    /// Begins the next entry point over this memory, or ends the call where none is to come.
    fn follow(&mut self, image: &Image, memory: M) -> Option<ContStop>
        requires idle { IsIdle self.old }
        ensures follows { (owner : Owner) (here : AnyPoint) (machine : State) → self.old.point ≡ Some here
            → machine.memory ≡ M.bytes memory → machine.cancelled ≡ self.old.cancelled
            → IsTurn M.bytes owner image.now self.new (on_to_next (job_with Nothing owner self.old) image.now here
            machine self.old.points.items) result }
        ensures size { memory_size M.bytes self.new ≡ length (M.bytes memory) }
        ensures stays { self.new ≡ worked self.old self.new }
    {
        match self.points.pop_at(0) {
            Some(next) => {
                self.begin(image, memory, next);
                None
            }
            None => {
                self.memory = Some(memory);
                Some(ContStop::Ended(self.result))
            }
        }
    }

    /// Goes on from the return of an entry point, whose machine this is, to the next one or to the end of the call.
    pub(crate) fn returned(
        &mut self,
        image: &Image,
        machine: Machine<M>,
        r0: u32,
        r1: u32,
    ) -> Option<ContStop>
        requires idle { IsIdle self.old }
        requires flag { (state_of M.bytes machine).cancelled ≡ self.old.cancelled }
        ensures goes { (owner : Owner) (point : AnyPoint) → self.old.point ≡ Some point
            → (let job = job_with Nothing owner self.old in
            let here = point in
            let left = state_of M.bytes machine in
            IsTurn M.bytes owner image.now self.new
            (on_to_next (job_after_return job here left.params r0 r1) image.now here left (still_to_come here r0 job.points)) result) }
        ensures size { memory_size M.bytes self.new ≡ length (state_of M.bytes machine).memory }
        ensures stays { self.new ≡ worked self.old self.new }
    {
        let (memory, params) = machine.finish();
        self.take_result(params, r0, r1);
        self.follow(image, memory)
    }
}
