ghost use Rattle.std.specs.Prelude.{◌≡◌, ◌^◌, ◌<◌, if◌then◌else◌};
ghost use Rattle.tee_storage.specs.Replies.{failure_of as failure};

use crate::step::StorageStep;
use crate::waits::Waits;
use rpc_msgs::{Payload, Rpc};
use ta_params::codes::*;

/// What a call comes to next, and what it then waits for.
#[derive(Drop)]
pub struct Turn {
    pub(crate) waits: Waits,
    pub(crate) step: StorageStep,
}

impl Turn {
    /// It asks for this.
    pub(crate) fn asking(waits: Waits, rpc: Rpc, payload: Payload) -> Turn
        ensures { result ≡ record { waits = waits; step = StorageStep.Ask rpc payload } }
    {
        Turn {
            waits,
            step: StorageStep::Ask { rpc, payload },
        }
    }

    /// It has ended well, with this number beside the result.
    pub(crate) fn ended(value: u32) -> Turn
        ensures { result ≡ record { waits = Waits.Nothing; step = StorageStep.Done 0 value } }
    {
        Turn {
            waits: Waits::Nothing,
            step: StorageStep::Done {
                result: TEE_SUCCESS,
                value,
            },
        }
    }

    /// It has ended with another result.
    pub(crate) fn failing(code: u32) -> Turn
        ensures { result ≡ record { waits = Waits.Nothing; step = StorageStep.Done code 0 } }
    {
        Turn {
            waits: Waits::Nothing,
            step: StorageStep::Done {
                result: code,
                value: 0,
            },
        }
    }

    /// A reply with this ret, which isn't 0, has ended it.
    pub(crate) fn failed(ret: u32) -> Turn
        ensures { result ≡ record { waits = Waits.Nothing; step = StorageStep.Done (failure ret) 0 } }
    {
        match ret {
            TEE_ERROR_ITEM_NOT_FOUND | TEE_ERROR_ACCESS_CONFLICT => Turn::failing(ret),
            _ => Turn::failing(TEE_ERROR_STORAGE_NOT_AVAILABLE),
        }
    }

    /// The application panics, since no object is open of the handle.
    pub(crate) fn panicking(code: u32) -> Turn
        ensures { result ≡ record { waits = Waits.Nothing; step = StorageStep.Panic code } }
    {
        Turn {
            waits: Waits::Nothing,
            step: StorageStep::Panic(code),
        }
    }
}
