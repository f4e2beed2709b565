ghost use Rattle.std.specs.Prelude.{◌≡◌};
ghost use Rattle.session_table.specs.Session.{is_of, is_opened_of, opened_with, reserved_for};

use ta_params::Login;

/// A session of a client with an instance.
#[derive(Clone, Copy)]
pub struct Session {
    /// The client that opened it, by its number.
    pub client: u32,
    /// Who the client said that it was.
    pub login: Login,
    /// The number of the instance.
    pub instance: u32,
    /// The word that the application keeps with the session, 0 until it is opened.
    pub context: u32,
    /// Whether the application's open entry point has returned with success.
    pub opened: bool,
}

impl Session {
    pub(crate) fn reserved(client: u32, login: Login, instance: u32) -> Session
        ensures { result ≡ reserved_for client login instance }
    {
        Session {
            client,
            login,
            instance,
            context: 0,
            opened: false,
        }
    }

    pub(crate) fn is_of(&self, instance: u32) -> bool
        ensures { result ≡ is_of instance self.now }
    {
        self.instance == instance
    }

    pub(crate) fn is_opened_of(&self, instance: u32) -> bool
        ensures { result ≡ is_opened_of instance self.now }
    {
        self.is_of(instance) && self.opened
    }

    pub(crate) fn opened_with(&self, context: u32) -> Session
        ensures { result ≡ opened_with self.now context }
    {
        Session {
            context,
            opened: true,
            ..*self
        }
    }
}
