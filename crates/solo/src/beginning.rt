//! A call that begins on the instance.
ghost use Rattle.std.specs.Prelude.{◌≡◌, ◌≢◌, [], ◌∷◌, Bool, List, IfOk, Some};
ghost use Rattle.begin_call.specs.Begins.{CanBegin, IsValidApp, begun_from};
ghost use Rattle.begin_call.specs.Points.{points_of};
ghost use Rattle.job_model.specs.Beginning.{begun_job};
ghost use Rattle.job_model.specs.Job.{Job as AnyJob};
ghost use Rattle.job_model.specs.declared.entry_point.EntryPoint.{EntryPoint as AnyPoint};
ghost use Rattle.kernel_model.specs.Application.{Application as AnyApplication, uuid_of};
ghost use Rattle.kernel_model.specs.Instances.{held_by};
ghost use Rattle.kernel_model.specs.Kernel.{Instance as AnyInstance, Runs, Waits};
ghost use Rattle.kernel_state.specs.Calls.{IsInPhase, bytes_of};
ghost use Rattle.kernel_state.specs.Setup.{application_of};
ghost use Rattle.own_model.specs.Solo.{OwnCall as AnyCall, OwnSession as AnySession, Solo as AnySolo, Start, begins, home, job_of};
ghost use Rattle.rpc_cont.specs.Beginning.{HasValidImage, beginning_on, held_uuid};
ghost use Rattle.rpc_cont.specs.Conts.{kept_memory};
ghost use Rattle.solo.specs.Beginning.{HasStart, beginning_with, from_start, idle_start, start_of};
ghost use Rattle.solo.specs.Calls.{IsCall};
ghost use Rattle.solo.specs.Standing.{ComesTo, IsBeside, app_in, without_calls};
ghost use Rattle.ta_params.specs.declared.copied_params.CopiedParams.{CopiedParams as AnyParams};

use crate::solo_session::SoloSession;
use arrayvec::ArrayVec;
use base::NoMemory;
use begin_call::Points;
use job_model::{CallKind, EntryPoint};
use kernel_state::Application;
use rpc_cont::{Cont, Held};
use std::alloc::Global;
use std::mem;
use ta_step::Plain;
use tee_storage::Handles;

/// What a call needs to begin, taken before anything is changed.
#[derive(Drop)]
pub struct Ready {
    pub app: Application,
    /// A memory of no bytes, which an instance of an image has that has none.
    pub empty: Plain,
}

/// An open makes its instance first, and takes it apart again where it fails.
fn opening_points() -> Points
    ensures { points_of result ≡ EntryPoint.Create ∷ EntryPoint.Open ∷ EntryPoint.Destroy ∷ [] }
{
    let mut behind = ArrayVec::new();
    behind.push(EntryPoint::Open);
    behind.push(EntryPoint::Destroy);
    Points {
        first: EntryPoint::Create,
        behind,
    }
}

/// A close takes the instance apart.
fn closing_points() -> Points
    ensures { points_of result ≡ EntryPoint.Close ∷ EntryPoint.Destroy ∷ [] }
{
    let mut behind = ArrayVec::new();
    behind.push(EntryPoint::Destroy);
    Points {
        first: EntryPoint::Close,
        behind,
    }
}

/// The entry points of a call. One that was settled as it came in never begins.
fn entry_points(kind: CallKind) -> Points
    ensures { kind ≢ CallKind.Settled → (app : AnyApplication) (start : Start)
        → job_of app kind start ≡ begun_job (from_start app start) (idle_start app start) (points_of result) }
{
    match kind {
        CallKind::Open => opening_points(),
        CallKind::Invoke { func } => Points::only(EntryPoint::Invoke { func }),
        CallKind::Close | CallKind::Settled => closing_points(),
    }
}

/// What a call holds that begins on an instance with this memory: on a dead one nothing runs.
pub fn held_of(ready: Ready, dead: bool, memory: Option<Plain>) -> Held<Plain>
    requires valid { IsValidApp (application_of ready.app) }
    requires empty { ready.empty ≡ [] }
    ensures begins { (seen : Bool) (job : AnyJob) (points : List AnyPoint)
        → begun_job (beginning_on bytes_of result seen) job points
        ≡ begun_job (beginning_with ready dead memory seen) job points }
    ensures image { HasValidImage result }
    ensures uuid { held_uuid result ≡ uuid_of (application_of ready.app) }
{
    let Ready { app, empty } = ready;
    if dead {
        return Held::Dead { uuid: app.uuid() };
    }
    match app {
        Application::OfImage(shared) => Held::Image {
            uuid: shared.uuid,
            image: shared.image,
            memory: memory.unwrap_or(empty),
        },
        Application::BuiltIn(native) => Held::Native(native),
    }
}

/// Starts a call that has waited on what it holds.
#[tactic(auto, using(crate::proofs::Starting::starts_so))]
fn start_call(cont: &mut Cont<Plain>, held: Held<Plain>, objects: Handles)
    requires fresh { CanBegin cont.old }
    requires image { HasValidImage held }
    ensures runs { cont.old.kind ≢ CallKind.Settled → (app : AnyApplication) (start : Start)
        → HasStart cont.old objects start → held_uuid held ≡ uuid_of app
        → ((job : AnyJob) (points : List AnyPoint)
        → begun_job (beginning_on bytes_of held cont.old.cancelled) job points
        ≡ begun_job (from_start app start) job points)
        → IsInPhase cont.new (Runs (job_of app cont.old.kind start)) }
    ensures stays { cont.new ≡ begun_from cont.old cont.new }
{
    let Points { first, behind } = entry_points(cont.kind);
    cont.objects = objects;
    cont.start_on(held, first, behind);
}

impl SoloSession {
    /// What a call needs to begin.
    pub(crate) fn ready(&self, alloc: Global) -> Result<Ready, NoMemory>
        ensures app { IfOk result (λ ready. application_of ready.app ≡ app_in self.now) }
        ensures empty { IfOk result (λ ready. ready.empty ≡ []) }
    {
        Ok(Ready {
            app: self.app.share()?,
            empty: Plain::new(alloc, 0)?,
        })
    }

    /// The call of this number holds the instance: its memory and its open objects are moved out.
    fn hold(&mut self, number: u32) -> (Option<Plain>, Handles)
        ensures holds { (instance : AnyInstance) → (without_calls self.old).instance ≡ Some instance
            → (without_calls self.new).instance ≡ Some (held_by number instance) }
        ensures memory { (instance : AnyInstance) → (without_calls self.old).instance ≡ Some instance
            → kept_memory bytes_of result.0 ≡ instance.memory }
        ensures objects { (instance : AnyInstance) → (without_calls self.old).instance ≡ Some instance
            → result.1 ≡ instance.objects }
        ensures stays { self.new ≡ record self.old { instance = self.new.instance } }
    {
        match &mut self.instance {
            Some(instance) => {
                instance.holder = Some(number);
                let objects = mem::replace(&mut instance.objects, Handles::new());
                (instance.memory.take(), objects)
            }
            None => (None, Handles::new()),
        }
    }

    /// A call that has waited, of this number, begins: it holds the instance and runs.
    pub(crate) fn begin(&mut self, number: u32, cont: &mut Cont<Plain>, ready: Ready)
        requires valid { IsValidApp (app_in self.old) }
        requires app { application_of ready.app ≡ app_in self.old }
        requires empty { ready.empty ≡ [] }
        requires fresh { CanBegin cont.old }
        ensures begins { (solo : AnySolo) (call : AnyCall) (at : AnySession × AnyInstance) (params : AnyParams)
            → IsBeside self.old solo → IsCall cont.old call → call.phase ≡ Waits params → call.kind ≢ CallKind.Settled
            → home solo ≡ Some at → ComesTo self.new cont.new number solo
            (begins (app_in self.old) solo number call (start_of solo at params cont.old)) }
        ensures app { self.new.app ≡ self.old.app }
        ensures calls { self.new.calls ≡ self.old.calls }
    {
        let Some(session) = self.session else {
            return;
        };
        let Some(instance) = &self.instance else {
            return;
        };
        let dead = instance.dead;
        cont.login = session.login;
        cont.context = session.context;
        cont.key = self.key;
        let (memory, objects) = self.hold(number);
        start_call(cont, held_of(ready, dead, memory), objects);
    }
}
