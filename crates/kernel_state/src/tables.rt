ghost use Rattle.std.specs.Prelude.{◌≡◌, false, is_some};
ghost use Rattle.std.specs.Option.{option_map_or};
ghost use Rattle.base.specs.NumberMap.{get};
ghost use Rattle.kernel_model.specs.Instances.{is_held};
ghost use Rattle.kernel_model.specs.Kernel.{Instance as AnyInstance};
ghost use Rattle.kernel_state.specs.Tables.{tables_of};

use frame_pool::Pool;
use session_table::{Sessions, Waiters};
use shm_registry::Registry;
use ta_instances::Instances;

/// What is kept beside slots and processors.
#[derive(Drop)]
pub struct Tables {
    pub sessions: Sessions,
    pub waiters: Waiters,
    pub instances: Instances,
    /// How many instances were made. The next gets the number behind it.
    pub instances_made: u32,
    /// The registered buffers, and their pins.
    pub registry: Registry,
    /// The pages that no instance has.
    pub pool: Pool,
}

impl Tables {
    /// Whether there is an instance of this number.
    #[tactic(auto, using(crate::proofs::Kept::kept_told))]
    pub fn is_kept(&self, number: u32) -> bool
        ensures { result ≡ is_some (get (tables_of self.now).instances number) }
    {
        match self.instances.get(number) {
            Some(_) => true,
            None => false,
        }
    }

    /// Whether a call holds the instance of this number.
    #[tactic(auto, using(crate::proofs::Kept::held_told))]
    pub fn is_held(&self, number: u32) -> bool
        ensures { result ≡ option_map_or is_held (get (tables_of self.now).instances number) false }
    {
        match self.instances.get(number) {
            Some(instance) => instance.holder.is_some(),
            None => false,
        }
    }

    /// Whether an entry point of the instance of this number has panicked.
    #[tactic(auto, using(crate::proofs::Kept::dead_told))]
    pub fn is_dead(&self, number: u32) -> bool
        ensures { result ≡ option_map_or (λ (instance : AnyInstance). instance.dead) (get (tables_of self.now).instances number) false }
    {
        match self.instances.get(number) {
            Some(instance) => instance.dead,
            None => false,
        }
    }
}
