//! Which applications a boot has, and whether a session is of the only one.
ghost use Rattle.std.specs.Prelude.{◌≡◌, IsTrue};
ghost use Rattle.core_cases.specs.Feeding.{AreOfOnlyApp, BeginWithOpen, HasOneApp, HasSharedApp};
ghost use Rattle.kernel_model.specs.Application.{OfImage};
ghost use Rattle.kernel_model.specs.Instances.{is_single};

use own_model::OwnEvent;
use ta_isa::{App, Boot};

/// Whether the sessions of an application share an instance.
fn is_single(app: &App) -> bool
    ensures { result ≡ is_single (OfImage app.now) }
{
    app.image.flags >> 2 & 1 == 1
}

/// Whether a boot has one application, whose sessions share no instance.
#[tactic(auto, using(crate::proofs::Tests::one_app))]
fn has_one_app(boot: &Boot) -> bool
    ensures { IsTrue result → HasOneApp boot.now }
{
    let apps = boot.apps.as_slice();
    apps.len() == 1 && !is_single(&apps[0])
}

/// Whether a boot has a first application, whose sessions share an instance.
#[tactic(auto, using(crate::proofs::Tests::shared_app))]
pub(crate) fn has_shared_app(boot: &Boot) -> bool
    ensures { IsTrue result → HasSharedApp boot.now }
{
    let apps = boot.apps.as_slice();
    !apps.is_empty() && is_single(&apps[0])
}

/// Whether the first of some events is an open.
fn begin_with_open(events: &[OwnEvent]) -> bool
    ensures { IsTrue result → BeginWithOpen events.now }
{
    matches!(events.first(), Some(OwnEvent::Open { .. }))
}

/// Whether they are those of a session of the only application of a boot.
pub(crate) fn are_of_only_app(boot: &Boot, events: &[OwnEvent]) -> bool
    ensures { IsTrue result → AreOfOnlyApp boot.now events.now }
{
    has_one_app(boot) && begin_with_open(events)
}
