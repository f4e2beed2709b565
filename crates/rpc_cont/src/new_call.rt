//! A call as its entry makes it, and as it begins on its instance. None of this takes memory.
ghost use Rattle.std.specs.Prelude.{◌≡◌, ℕ, List, [], ◌∷◌, length, Some, None};
ghost use Rattle.base.specs.NumberMap.{NumberMap};
ghost use Rattle.job_model.specs.Owner.{Owner, owner_of};
ghost use Rattle.job_model.specs.declared.entry_point.EntryPoint.{EntryPoint as AnyPoint};
ghost use Rattle.job_model.specs.Beginning.{begun_job};
ghost use Rattle.job_model.specs.Job.{Nothing, idle_job, native_job_at, of_tee};
ghost use Rattle.native_tas.specs.declared.relation.Relation.{Relation as AnyRelation};
ghost use Rattle.rpc_cont.specs.Advancing.{CanAdvance, IsInvoke};
ghost use Rattle.rpc_cont.specs.Beginning.{HasValidImage, IsEntered, IsFresh, beginning_on, held_uuid};
ghost use Rattle.tee_storage.specs.declared.handle.Handle.{Handle as AnyHandle};
ghost use Rattle.rpc_cont.specs.Conts.{job_of, job_with, kept_params, memory_size, native_body};
ghost use Rattle.rpc_cont.specs.Shapes.{IsShaped};

use crate::app::ContApp;
use crate::call_entry::CallEntry;
use crate::cont::Cont;
use crate::held::Held;
use crate::phase::Phase;
use arrayvec::ArrayVec;
use job_model::EntryPoint;
use ta_params::CallResult;
use ta_params::codes::TEE_SUCCESS;
use ta_step::TaMemory;
use tee_storage::{Handles, Key};

impl<M: TaMemory + Drop> Cont<M> {
    /// A call that was settled at its entry, with this result.
    pub fn settled(key: Key, entered: CallEntry, outcome: CallResult) -> Self
        ensures key { result.key ≡ key }
        ensures fresh { IsFresh result }
        ensures entered { IsEntered entered result }
        ensures params { result.params ≡ entered.params }
        ensures outcome { result.result ≡ outcome }
        ensures objects { result.objects ≡ [] }
        ensures phase { result.phase ≡ Phase.Ends }
        ensures shape { IsShaped M.bytes result }
    {
        Cont::fresh(key, entered, outcome, Phase::Ends)
    }

    /// A call that waits for its instance.
    pub fn waiting(key: Key, entered: CallEntry) -> Self
        ensures key { result.key ≡ key }
        ensures fresh { IsFresh result }
        ensures entered { IsEntered entered result }
        ensures params { result.params ≡ entered.params }
        ensures outcome { result.result ≡ of_tee 0 }
        ensures job { (owner : Owner) (objects : NumberMap AnyHandle) → record (job_with Nothing owner result) { objects = objects }
            ≡ idle_job owner entered.login entered.context objects (kept_params entered.params) }
        ensures phase { result.phase ≡ Phase.Waits }
        ensures shape { IsShaped M.bytes result }
    {
        Cont::fresh(key, entered, CallResult::of_tee(TEE_SUCCESS), Phase::Waits)
    }

    /// A call that has come to no entry point yet, with this result so far.
    fn fresh(key: Key, entered: CallEntry, outcome: CallResult, phase: Phase) -> Self
        ensures key { result.key ≡ key }
        ensures fresh { IsFresh result }
        ensures entered { IsEntered entered result }
        ensures params { result.params ≡ entered.params }
        ensures outcome { result.result ≡ outcome }
        ensures job { (owner : Owner) (objects : NumberMap AnyHandle) → record (job_with Nothing owner result) { objects = objects }
            ≡ record (idle_job owner entered.login entered.context objects (kept_params entered.params)) { result = outcome } }
        ensures objects { result.objects ≡ [] }
        ensures phase { result.phase ≡ phase }
    {
        Cont {
            app: None,
            client: entered.client,
            kind: entered.kind,
            login: entered.login,
            context: entered.context,
            params: entered.params,
            arg: entered.arg,
            area: entered.area,
            places: entered.places,
            session: entered.session,
            instance: entered.instance,
            key,
            memory: None,
            point: None,
            machine: None,
            points: ArrayVec::new(),
            result: outcome,
            objects: Handles::new(),
            object: None,
            request: None,
            buffer: None,
            cancelled: false,
            steps: 0,
            phase,
            done: false,
        }
    }

    /// Begins on its instance, whose open objects it has: at this entry point, with those behind it.
    pub fn start_on(&mut self, held: Held<M>, first: EntryPoint, behind: ArrayVec<EntryPoint, 3>)
        requires fresh { IsFresh self.old }
        requires image { HasValidImage held }
        ensures begins { job_of M.bytes self.new ≡ begun_job (beginning_on M.bytes held self.old.cancelled)
            (job_with Nothing (owner_of (held_uuid held) self.old.key) self.old) (first ∷ behind.items) }
        ensures runs { CanAdvance M.bytes self.new }
        ensures shape { IsShaped M.bytes self.new }
        ensures size { memory_size M.bytes self.new ≡ length (beginning_on M.bytes held self.old.cancelled).memory }
        ensures stays { self.new ≡ record self.old {
          app = self.new.app;
          params = self.new.params;
          point = self.new.point;
          machine = self.new.machine;
          points = self.new.points;
          phase = Phase.Runs;
        } }
    {
        self.phase = Phase::Runs;
        match held {
            Held::Image {
                uuid,
                image,
                memory,
            } => {
                self.points = behind;
                self.begin(&image, memory, first);
                self.app = Some(ContApp::Image { uuid, image });
            }
            Held::Native(native) => {
                self.begin_native(first, behind);
                self.app = Some(ContApp::Native(native));
            }
            Held::Dead { uuid } => self.app = Some(ContApp::Dead { uuid }),
        }
    }

    /// Begins an entry point of a built-in application: an invoke runs its function, and the others have nothing to
    /// run.
    fn begin_native(&mut self, first: EntryPoint, behind: ArrayVec<EntryPoint, 3>)
        requires fresh { IsFresh self.old }
        ensures begins { (relation : AnyRelation) (owner : Owner) → job_with (native_body relation self.new.point) owner self.new
            ≡ native_job_at relation (job_with Nothing owner self.old) first behind.items }
        ensures invokes { (point : AnyPoint) → self.new.point ≡ Some point → IsInvoke point }
        ensures stays { self.new ≡ record self.old { point = self.new.point; points = self.new.points } }
    {
        match first {
            EntryPoint::Invoke { .. } => {
                self.point = Some(first);
                self.points = behind;
            }
            EntryPoint::Close => self.points = behind,
            EntryPoint::Create | EntryPoint::Open | EntryPoint::Destroy => {}
        }
    }
}
