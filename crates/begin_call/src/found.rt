//! What a call finds on the instance that it begins on, and how it starts there.
ghost use Rattle.std.specs.Prelude.{◌≡◌, ◌∷◌, Bool, List, Some};
ghost use Rattle.job_model.specs.Beginning.{begun_job};
ghost use Rattle.job_model.specs.Job.{Job as AnyJob};
ghost use Rattle.job_model.specs.declared.entry_point.EntryPoint.{EntryPoint as AnyPoint};
ghost use Rattle.kernel_model.specs.Kernel.{Runs};
ghost use Rattle.rpc_cont.specs.Beginning.{HasValidImage, beginning_on, held_uuid};
ghost use Rattle.kernel_state.specs.Calls.{IsAppOf, IsInPhase, bytes_of};
ghost use Rattle.begin_call.specs.Begins.{CanBegin};
ghost use Rattle.begin_call.specs.Found.{CanStart, beginning_with, job_on};

use crate::points::Points;
use frame_pool::Pages;
use kernel_state::Application;
use rpc_cont::{Cont, Held};
use uuid::Uuid;

/// What a call finds on the instance that it begins on, and its entry points there.
#[derive(Drop)]
pub(crate) struct InstanceFound {
    /// The UUID of its application.
    pub uuid: Uuid,
    /// None where it is dead.
    pub program: Option<Application>,
    pub memory: Option<Pages>,
    pub points: Points,
}

/// What it begins on, as a call holds it.
fn held_of(uuid: Uuid, program: Option<Application>, memory: Option<Pages>) -> Held<Pages>
    requires { CanStart program memory uuid }
    ensures begins { (seen : Bool) (job : AnyJob) (points : List AnyPoint) → begun_job (beginning_on bytes_of result seen) job points
        ≡ begun_job (beginning_with program memory seen) job points }
    ensures image { HasValidImage result }
    ensures uuid { held_uuid result ≡ uuid }
{
    match program {
        Some(Application::OfImage(shared)) => {
            let Some(memory) = memory else {
                unreachable!();
            };
            Held::Image {
                uuid,
                image: shared.image,
                memory,
            }
        }
        Some(Application::BuiltIn(native)) => Held::Native(native),
        None => Held::Dead { uuid },
    }
}

/// Starts the call on what it finds, with the open objects that it has.
pub(crate) fn start(cont: &mut Cont<Pages>, found: InstanceFound)
    requires fresh { CanBegin cont.old }
    requires found { CanStart found.program found.memory found.uuid }
    ensures runs { IsInPhase cont.new (Runs (job_on found cont.old)) }
    ensures app { IsAppOf cont.new.app (Some found.uuid) }
    ensures stays { cont.new ≡ record cont.old {
      app = cont.new.app;
      params = cont.new.params;
      point = cont.new.point;
      machine = cont.new.machine;
      points = cont.new.points;
      phase = cont.new.phase;
    } }
{
    let InstanceFound {
        uuid,
        program,
        memory,
        points,
    } = found;
    let held = held_of(uuid, program, memory);
    cont.start_on(held, points.first, points.behind);
}
