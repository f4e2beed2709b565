ghost use Rattle.std.specs.Prelude.{◌≡◌, ℕ, ◌^◌, ◌<◌};
ghost use Rattle.native_tas.specs.DriverRelation.{driver_answer};

use crate::driver_relation::DriverRelation;

/// The code of a driver: from how often it was notified to a result.
pub type DriverFn = fn(u32) -> u32;

/// A driver, which the notifications of its value are for. Its function answers every number as its
/// relation says: without that fact no `Driver` can be kept, lent or handed on. Contracts see its value and its
/// relation.
#[derive(Clone, Copy)]
pub struct Driver {
    pub value: u32,
    pub relation: DriverRelation,
    pub call: DriverFn,
    ghost callable: { (count : ℕ) → count < 2 ^ 32 → pre call count },
    ghost meets: { (count : ℕ) (result : ℕ) → count < 2 ^ 32
        → post call count result
        → result ≡ driver_answer relation count },
}

impl Driver {
    /// Calls the driver with how often it was notified.
    pub fn answer(&self, count: u32) -> u32
        ensures { result ≡ driver_answer self.now.relation count }
    {
        (self.call)(count)
    }
}
