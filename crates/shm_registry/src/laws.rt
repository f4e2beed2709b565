//! The definitions of `specs/` at small inputs.

ghost use Rattle.shm_registry.specs.Examples.{Examples};

/// Pieces, and registries of few buffers.
pub fn worked_examples()
    ensures { Examples }
{}
