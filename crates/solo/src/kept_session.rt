use ta_params::Login;

/// The session, while it is being opened and while it is opened.
#[derive(Clone, Copy)]
pub(crate) struct KeptSession {
    pub login: Login,
    /// The word that the application keeps with it.
    pub context: u32,
    pub opened: bool,
}
