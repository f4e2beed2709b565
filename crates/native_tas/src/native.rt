ghost use Rattle.std.specs.Prelude.{◌≡◌, ℕ, ◌^◌, ◌<◌};
ghost use Rattle.native_tas.specs.Relation.{answer_of};

use crate::relation::Relation;
use ta_params::CopiedParams;
use uuid::Uuid;

/// The code of a native application: from a command and its parameters to a result, and the parameters that
/// are left.
pub type NativeFn = fn(u32, &mut CopiedParams) -> u32;

/// A native application. Its function answers every command with every parameters as its relation says:
/// without that fact no `Native` can be kept, lent or handed on. Contracts see its UUID and its relation.
#[derive(Clone, Copy)]
pub struct Native {
    pub uuid: Uuid,
    pub relation: Relation,
    pub call: NativeFn,
    ghost callable: { (command : ℕ) (params : _) → command < 2 ^ 32 → pre call command params },
    ghost meets: { (command : ℕ) (params : _) (result : ℕ) (left : _) → command < 2 ^ 32
        → post call command params result left
        → (result, left.now) ≡ answer_of relation command params.now },
}

impl Native {
    /// Calls the application with a command and its parameters.
    pub fn answer(&self, command: u32, params: &mut CopiedParams) -> u32
        ensures { (result, params.new) ≡ answer_of self.now.relation command params.old }
    {
        (self.call)(command, params)
    }
}
