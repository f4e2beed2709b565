//! What the applications that two journals have show by themselves.
ghost use Rattle.std.specs.Prelude.{◌≡◌, ◌↔◌, IsTrue};
ghost use Rattle.std.specs.Option.{option_map};
ghost use Rattle.compare_model.specs.Comparing.{Pair};
ghost use Rattle.kernel_state.specs.Setup.{application_of};
ghost use Rattle.session_compare.specs.Logs.{AreToldApart};

use crate::same_apps::is_same_app;
use compare_model::Compared;
use kernel_state::Application;

/// Both keys of the tags of object files are the same.
pub(crate) fn is_same_key(one: &[u8; 32], other: &[u8; 32]) -> bool
    ensures { IsTrue result ↔ (one.now ≡ other.now) }
{
    *one == *other
}

/// Both are one application, under one key.
fn are_of_one(one: &Application, other: &Application, one_key: bool) -> bool
    ensures { IsTrue result ↔ ((application_of one.now ≡ application_of other.now) × IsTrue one_key) }
{
    one_key && is_same_app(one, other)
}

/// What the applications of two journals show, whose boots have one key or not: `None` where they are one under one key, so that
/// it is for the events to show.
pub(crate) fn told_apart(
    one: &Option<Application>,
    two: &Option<Application>,
    one_key: bool,
) -> Option<Compared>
    ensures { (pair : Pair) → (IsTrue one_key ↔ (pair.one.boot.key ≡ pair.two.boot.key))
        → AreToldApart pair (option_map application_of one.now) (option_map application_of two.now) result }
{
    let Some(app) = one else {
        return Some(Compared::Absent(1));
    };
    let Some(other) = two else {
        return Some(Compared::Absent(2));
    };
    if are_of_one(app, other, one_key) {
        None
    } else {
        Some(Compared::Other)
    }
}
