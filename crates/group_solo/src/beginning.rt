//! A call that begins on the instance that the sessions share.
ghost use Rattle.std.specs.Prelude.{◌≡◌, ℕ, [], IfOk, List, Some};
ghost use Rattle.base.specs.NumberMap.{get};
ghost use Rattle.begin_call.specs.Begins.{CanBegin, IsValidApp, begun_from};
ghost use Rattle.begin_call.specs.Points.{points_of};
ghost use Rattle.group_model.specs.Group.{Group as AnyGroup, Start, job_on};
ghost use Rattle.job_model.specs.Beginning.{begun_job};
ghost use Rattle.job_model.specs.Job.{Job as AnyJob};
ghost use Rattle.job_model.specs.declared.entry_point.EntryPoint.{EntryPoint as AnyPoint};
ghost use Rattle.kernel_model.specs.Application.{Application as AnyApplication, uuid_of};
ghost use Rattle.kernel_model.specs.Instances.{held_by};
ghost use Rattle.kernel_model.specs.Kernel.{Instance as AnyInstance, Runs, Waits};
ghost use Rattle.kernel_state.specs.Calls.{IsInPhase, bytes_of};
ghost use Rattle.kernel_state.specs.Setup.{application_of};
ghost use Rattle.rpc_cont.specs.Beginning.{HasValidImage, beginning_on, held_uuid};
ghost use Rattle.rpc_cont.specs.Conts.{kept_memory};
ghost use Rattle.group_solo.specs.Beginning.{Beginner, HasStart, begun, from_start};
ghost use Rattle.group_solo.specs.Calls.{IsGroupCall};
ghost use Rattle.group_solo.specs.Standing.{ComesTo, IsBeside, app_in, without_calls};

use crate::group::GroupSolo;
use crate::kept_call::KeptCall;
use crate::sessions::session_at;
use base::NoMemory;
use begin_call::Points;
use rpc_cont::{Cont, Held};
use solo::{Ready, held_of};
use std::alloc::Global;
use std::mem;
use ta_step::Plain;
use tee_storage::Handles;

/// Starts a call that has waited on what it holds, at these entry points.
#[tactic(auto, using(crate::proofs::Starting::starts_so))]
fn start_call(cont: &mut Cont<Plain>, held: Held<Plain>, objects: Handles, points: Points)
    requires fresh { CanBegin cont.old }
    requires image { HasValidImage held }
    ensures runs { (app : AnyApplication) (start : Start) (instance : AnyInstance)
        → HasStart cont.old objects start instance → held_uuid held ≡ uuid_of app
        → ((job : AnyJob) (points : List AnyPoint)
        → begun_job (beginning_on bytes_of held cont.old.cancelled) job points
        ≡ begun_job (from_start app start instance) job points)
        → IsInPhase cont.new (Runs (job_on app start instance (points_of points))) }
    ensures stays { cont.new ≡ begun_from cont.old cont.new }
{
    let Points { first, behind } = points;
    cont.objects = objects;
    cont.start_on(held, first, behind);
}

impl GroupSolo {
    /// What a call needs to begin.
    pub(crate) fn ready(&self, alloc: Global) -> Result<Ready, NoMemory>
        ensures app { IfOk result (λ ready. application_of ready.app ≡ app_in self.now) }
        ensures empty { IfOk result (λ ready. ready.empty ≡ []) }
    {
        Ok(Ready {
            app: self.app.share()?,
            empty: Plain::new(alloc, 0)?,
        })
    }

    /// The call of this number holds the instance: its memory and its open objects are moved out.
    fn hold(&mut self, number: u32) -> (Option<Plain>, Handles)
        ensures holds { (at : ℕ) (instance : AnyInstance) → (without_calls self.old).instance ≡ Some (at, instance)
            → (without_calls self.new).instance ≡ Some (at, held_by number instance) }
        ensures memory { (at : ℕ) (instance : AnyInstance) → (without_calls self.old).instance ≡ Some (at, instance)
            → kept_memory bytes_of result.0 ≡ instance.memory }
        ensures objects { (at : ℕ) (instance : AnyInstance) → (without_calls self.old).instance ≡ Some (at, instance)
            → result.1 ≡ instance.objects }
        ensures stays { self.new ≡ record self.old { instance = self.new.instance } }
    {
        match &mut self.instance {
            Some(shared) => {
                shared.kept.holder = Some(number);
                let objects = mem::replace(&mut shared.kept.objects, Handles::new());
                (shared.kept.memory.take(), objects)
            }
            None => (None, Handles::new()),
        }
    }

    /// A call that has waited, of this number, begins these entry points: it holds the instance and runs.
    pub(crate) fn begin(&mut self, number: u32, call: &mut KeptCall, ready: Ready, points: Points)
        requires valid { IsValidApp (app_in self.old) }
        requires app { application_of ready.app ≡ app_in self.old }
        requires empty { ready.empty ≡ [] }
        requires fresh { CanBegin call.old.cont }
        ensures begins { (g : AnyGroup) (b : Beginner) → IsBeside self.old g → IsGroupCall call.old b.call
            → b.number ≡ number → b.call.phase ≡ Waits b.params → get g.sessions b.call.session ≡ Some b.session
            → g.instance ≡ Some b.there
            → ComesTo self.new call.new number g (begun (app_in self.old) g b (points_of points)) }
        ensures app { self.new.app ≡ self.old.app }
        ensures calls { self.new.calls ≡ self.old.calls }
    {
        let Some(session) = session_at(self.sessions.as_slice(), call.session) else {
            return;
        };
        let Some(shared) = &self.instance else {
            return;
        };
        let dead = shared.kept.dead;
        call.cont.login = session.login;
        call.cont.context = session.context;
        call.cont.key = self.key;
        let (memory, objects) = self.hold(number);
        start_call(
            &mut call.cont,
            held_of(ready, dead, memory),
            objects,
            points,
        );
    }
}
