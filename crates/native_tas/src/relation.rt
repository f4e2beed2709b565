ghost use Rattle.std.specs.Prelude.{◌≡◌};
ghost use Rattle.native_tas.specs.Relation.{answer_of};

use crate::digesting::digest;
use ta_params::CopiedParams;

/// What a native application answers to each command with each parameters. This project's own.
#[derive(Clone, Copy, PartialEq, Eq)]
pub enum Relation {
    /// Command 0 writes the SHA-256 of the first buffer into the second.
    Digest,
    /// This result, to whatever command, and the parameters as they are.
    Fixed(u32),
}

impl Relation {
    /// Answers a command with its parameters. Takes no memory.
    pub fn answer(self, command: u32, params: &mut CopiedParams) -> u32
        ensures { (result, params.new) ≡ answer_of self command params.old }
    {
        match self {
            Relation::Digest => digest(command, params),
            Relation::Fixed(code) => code,
        }
    }
}
