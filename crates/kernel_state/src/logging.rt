//! What a lock round a core sees of it: its events, each made by its processor, and what it was booted with.
use crate::kernel_core::Core;
use crate::setup::Setup;
use base::Logged;
use event_journal::Event;
use std::marker::Model;

/// What a core was booted with, as contracts see it: the boot, the UUID and relation of each built-in application, and the terms.
/// No value of it is made.
pub struct CoreBasis {
    setup: Setup,
}

impl Model for CoreBasis {
    ghost use Rattle.kernel_state.specs.Setup.{Basis, basis_with};

    ghost Value = { Basis };

    ghost view = { λ basis. basis_with basis.setup };
}

impl Logged for Core {
    ghost use Rattle.kernel_model.specs.Turns.{cpu_of};
    ghost use Rattle.kernel_state.specs.Meaning.{core_basis, events_of};

    type Entry = Event;

    type Basis = CoreBasis;

    ghost entries = { events_of };

    ghost maker = { cpu_of };

    ghost basis = { core_basis };

    fn length(&self) -> u64 {
        self.parts.journal.len()
    }
}
