ghost use Rattle.std.specs.Prelude.{◌≡◌, false};
ghost use Rattle.std.specs.Option.{option_map, option_map_or};
ghost use Rattle.kernel_model.specs.Instances.{is_held};
ghost use Rattle.own_model.specs.Solo.{home, is_opened};
ghost use Rattle.solo.specs.Beginning.{found_at};
ghost use Rattle.solo.specs.Standing.{without_calls};

use crate::solo_session::SoloSession;

/// What a call finds at the instance of its session.
#[derive(Clone, Copy)]
pub(crate) struct Found {
    pub dead: bool,
    pub held: bool,
}

impl SoloSession {
    /// What a call finds at home, where session and instance are there.
    pub(crate) fn home(&self) -> Option<Found>
        ensures { result ≡ option_map found_at (home (without_calls self.now)) }
    {
        match (&self.session, &self.instance) {
            (Some(_), Some(instance)) => Some(Found {
                dead: instance.dead,
                held: instance.holder.is_some(),
            }),
            (Some(_), None) | (None, Some(_) | None) => None,
        }
    }

    /// Whether a call holds the instance.
    pub(crate) fn is_held(&self) -> bool
        ensures { result ≡ option_map_or is_held (without_calls self.now).instance false }
    {
        match &self.instance {
            Some(instance) => instance.holder.is_some(),
            None => false,
        }
    }

    /// Whether the session is there and opened.
    pub(crate) fn is_opened(&self) -> bool
        ensures { result ≡ is_opened (without_calls self.now).session }
    {
        match &self.session {
            Some(session) => session.opened,
            None => false,
        }
    }
}
