ghost use Rattle.std.specs.Prelude.{◌≡◌};

use crate::codes::{TEE_ORIGIN_TEE, TEE_ORIGIN_TRUSTED_APP};

/// What a call of an application came to.
#[derive(Clone, Copy, PartialEq, Eq)]
pub struct CallResult {
    /// A result code, as `TEE_SUCCESS`, or a number of the application's own.
    pub result: u32,
    /// Which layer the result comes from, as `TEE_ORIGIN_TRUSTED_APP`.
    pub origin: u32,
}

impl CallResult {
    /// A result that no application returned.
    pub fn of_tee(code: u32) -> CallResult
        ensures { result ≡ record { result = code; origin = 3 } }
    {
        CallResult {
            result: code,
            origin: TEE_ORIGIN_TEE,
        }
    }

    /// A result that the application returned.
    pub fn of_application(code: u32) -> CallResult
        ensures { result ≡ record { result = code; origin = 4 } }
    {
        CallResult {
            result: code,
            origin: TEE_ORIGIN_TRUSTED_APP,
        }
    }
}
