use job_model::CallKind;

/// A call that comes in.
#[derive(Clone, Copy)]
pub struct Entering {
    pub kind: CallKind,
    /// It has an area for the arguments of its requests.
    pub area: bool,
}
