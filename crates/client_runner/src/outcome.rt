//! What a call came to.
use ta_params::{CallResult, CopiedParams};

/// The result of a call, and its parameters, outputs as they came back.
#[derive(Drop)]
pub(crate) struct Outcome {
    pub(crate) told: CallResult,
    pub(crate) params: CopiedParams,
}
