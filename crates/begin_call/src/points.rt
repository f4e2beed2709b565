//! The entry points of a call.
ghost use Rattle.std.specs.Prelude.{◌≡◌, ℕ, List, [], ◌∷◌, Some, Bool};
ghost use Rattle.base.specs.NumberMap.{IsRising, get, remove};
ghost use Rattle.kernel_model.specs.Application.{Booted};
ghost use Rattle.kernel_model.specs.Begin.{closing_points};
ghost use Rattle.kernel_model.specs.Instances.{app_of, destroy_after, destroy_of};
ghost use Rattle.kernel_model.specs.Kernel.{Instance as AnyInstance};
ghost use Rattle.kernel_state.specs.Setup.{application_of};
ghost use Rattle.kernel_state.specs.Tables.{tables_of};
ghost use Rattle.begin_call.specs.Points.{destroy_where, opening_points, points_of};

use arrayvec::ArrayVec;
use job_model::EntryPoint;
use kernel_state::{Application, Tables};
use session_table::{Session, Sessions};

/// The entry points that a call begins with: the first, and those behind it.
#[derive(Drop)]
pub struct Points {
    pub first: EntryPoint,
    pub behind: ArrayVec<EntryPoint, 3>,
}

impl Points {
    /// This one alone.
    pub fn only(first: EntryPoint) -> Points
        ensures { points_of result ≡ first ∷ [] }
    {
        Points {
            first,
            behind: ArrayVec::new(),
        }
    }

    /// Those of an open: its instance is made first where it is new, and taken apart again where the open fails.
    pub fn opening(makes: bool, unmakes: bool) -> Points
        ensures { points_of result ≡ opening_points makes unmakes }
    {
        let mut behind = ArrayVec::new();
        if makes {
            behind.push(EntryPoint::Open);
        }
        if unmakes {
            behind.push(EntryPoint::Destroy);
        }
        let first = if makes {
            EntryPoint::Create
        } else {
            EntryPoint::Open
        };
        Points { first, behind }
    }

    /// Those of a close, which takes the instance apart where nothing keeps it.
    pub fn closing(unmakes: bool) -> Points
        ensures { points_of result ≡ EntryPoint.Close ∷ destroy_where unmakes }
    {
        let mut behind = ArrayVec::new();
        if unmakes {
            behind.push(EntryPoint::Destroy);
        }
        Points {
            first: EntryPoint::Close,
            behind,
        }
    }
}

/// Whether destroy follows where none of these sessions of the instance is opened: it isn't kept alive.
pub fn destroy_after(app: &Application, sessions: &Sessions, instance: u32) -> bool
    ensures { destroy_where result ≡ destroy_after (application_of app.now) sessions.now.kept instance }
{
    sessions.users(instance).opened == 0 && !app.keeps_alive()
}

/// The same, once the session of this number is gone.
pub fn destroy_of(app: &Application, sessions: &Sessions, number: u32, session: Session) -> bool
    requires kept { get sessions.now.kept number ≡ Some session }
    requires rising { IsRising sessions.now.kept }
    ensures { (boot : Booted) (uuid : List ℕ) → app_of boot uuid ≡ Some (application_of app.now)
        → destroy_where result ≡ destroy_of boot uuid (remove sessions.now.kept number) session.instance }
{
    let own = u32::from(session.opened);
    sessions.users(session.instance).opened == own && !app.keeps_alive()
}

/// The entry points of a close of this session, whose instance is of the application.
pub fn closing_points(tables: &Tables, app: &Application, number: u32, session: Session) -> Points
    requires session { get (tables_of tables.now).sessions number ≡ Some session }
    requires rising { IsRising (tables_of tables.now).sessions }
    ensures { (boot : Booted) (slot : ℕ) (seen : Bool) (instance : AnyInstance) → app_of boot instance.uuid ≡ Some (application_of app.now)
        → points_of result ≡ closing_points
        (record { boot = boot; tables = tables_of tables.now; slot = slot; seen = seen }) number session instance }
{
    Points::closing(destroy_of(app, &tables.sessions, number, session))
}
