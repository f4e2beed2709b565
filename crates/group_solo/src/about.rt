use job_model::CallKind;

/// A call of a session on an instance that comes in.
#[derive(Clone, Copy)]
pub(crate) struct About {
    pub kind: CallKind,
    /// It has an area for the arguments of its requests.
    pub area: bool,
    pub session: u64,
    pub instance: u64,
}
