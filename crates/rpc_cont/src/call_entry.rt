use job_model::CallKind;
use param_copy::Places;
use ta_params::{CopiedParams, Login};

/// What a call has from its entry on.
#[derive(Drop)]
pub struct CallEntry {
    /// Who may resume it: a7.
    pub client: u32,
    pub kind: CallKind,
    pub login: Login,
    /// The session's context.
    pub context: u32,
    /// The copied parameters; `None` stands for four that are empty.
    pub params: Option<CopiedParams>,
    /// The address of its argument.
    pub arg: u64,
    /// The address of the area behind its argument, if it has brought one along.
    pub area: Option<u64>,
    /// Where the results of its parameters go.
    pub places: Places,
    pub session: u32,
    pub instance: u32,
}
