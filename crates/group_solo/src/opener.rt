use ta_params::Login;

/// Who opens.
#[derive(Clone, Copy)]
pub(crate) struct Opener {
    pub login: Login,
    /// Whether the call has an area.
    pub area: bool,
}
