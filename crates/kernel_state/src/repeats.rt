ghost use Rattle.std.specs.Prelude.{◌≡◌, ◌≤◌, length, map};
ghost use Rattle.kernel_state.specs.Booting.{first_repeated};

use arrayvec::ArrayVec;
use ta_isa::App;
use uuid::Uuid;

/// How many applications there may be, built-in ones among them.
const MAX_APPS: usize = 32;

/// The UUID of the first of these applications that has one of these UUIDs, or that of an earlier application.
pub(crate) fn first_repeated(uuids: &[Uuid], apps: &[App]) -> Option<Uuid>
    requires uuids { length uuids.now ≤ 16 }
    requires apps { length apps.now ≤ 16 }
    ensures { result ≡ first_repeated uuids.now (map (λ app. app.uuid) apps.now) }
{
    let mut seen = ArrayVec::<Uuid, MAX_APPS>::new();
    seen.try_extend_from_slice(uuids).unwrap();
    for app in apps {
        if seen.as_slice().contains(&app.uuid) {
            return Some(app.uuid);
        }
        seen.push(app.uuid);
    }
    None
}
