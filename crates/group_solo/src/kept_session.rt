use ta_params::Login;

/// A session, while it is being opened and while it is opened.
#[derive(Clone, Copy)]
pub struct KeptSession {
    pub login: Login,
    /// The word that the application keeps with it.
    pub context: u32,
    pub opened: bool,
    /// The number of its instance.
    pub instance: u64,
}
