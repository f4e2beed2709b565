ghost use Rattle.std.specs.Prelude.{[]};
ghost use Rattle.kernel_model.specs.Application.{Booted};

use std::marker::Brand;

/// What the core of a port was booted with, which stays the same whatever is done with the port: a fact of its type, so that
/// a client over any port needs to say nothing of it.
pub trait OfBoot {
    ghost booted: { Booted };
}

impl OfBoot for Brand {
    ghost booted = { record { cpus = 0; threads = 0; frames = 0; apps = []; key = [] } };
}
