//! What is asked of the sessions and the instance.
ghost use Rattle.std.specs.Prelude.{◌≡◌, ◌&&◌, true, false, not, find, None, Some};
ghost use Rattle.std.specs.Option.{option_map, option_map_or};
ghost use Rattle.base.specs.NumberMap.{remove};
ghost use Rattle.begin_call.specs.Points.{destroy_where};
ghost use Rattle.kernel_model.specs.Instances.{is_held};
ghost use Rattle.kernel_model.specs.Kernel.{Instance as AnyInstance};
ghost use Rattle.group_model.specs.Group.{GroupWaiter, awaited_number, destroy_after, instance_at, is_dead, is_taken, home};
ghost use Rattle.group_solo.specs.Found.{found_at, found_there, found_home};
ghost use Rattle.group_solo.specs.Standing.{app_in, sessions_of, without_calls};

use crate::group::GroupSolo;
use crate::sessions::{has_opened, has_opened_beside, has_session, session_at};

/// What a call finds at an instance.
#[derive(Clone, Copy)]
pub(crate) struct Found {
    pub dead: bool,
    pub held: bool,
}

/// The instance that is there.
#[derive(Clone, Copy)]
pub(crate) struct There {
    pub number: u64,
    pub found: Found,
}

/// An opened session whose instance is there.
#[derive(Clone, Copy)]
pub(crate) struct Home {
    pub instance: u64,
    pub found: Found,
}

impl GroupSolo {
    /// The instance that is there, if one is.
    pub(crate) fn there(&self) -> Option<There>
        ensures { result ≡ option_map found_there (without_calls self.now).instance }
    {
        let shared = self.instance.as_ref()?;
        Some(There {
            number: shared.number,
            found: Found {
                dead: shared.kept.dead,
                held: shared.kept.holder.is_some(),
            },
        })
    }

    /// What a call finds at the instance of a number, if that is there.
    pub(crate) fn at(&self, number: u64) -> Option<Found>
        ensures { result ≡ option_map found_at (instance_at (without_calls self.now) number) }
    {
        match &self.instance {
            Some(shared) if shared.number == number => Some(Found {
                dead: shared.kept.dead,
                held: shared.kept.holder.is_some(),
            }),
            Some(_) | None => None,
        }
    }

    /// The session of a number with its instance, where it is opened and that is there.
    #[tactic(auto, using(crate::proofs::Finding::is_home, crate::proofs::Finding::no_session, crate::proofs::Finding::not_opened, crate::proofs::Finding::no_instance))]
    pub(crate) fn home(&self, number: u64) -> Option<Home>
        ensures { result ≡ option_map found_home (home (without_calls self.now) number) }
    {
        let Some(session) = session_at(self.sessions.as_slice(), number) else {
            return None;
        };
        if !session.opened {
            return None;
        }
        let Some(found) = self.at(session.instance) else {
            return None;
        };
        Some(Home {
            instance: session.instance,
            found,
        })
    }

    /// The instance is dead.
    pub(crate) fn is_dead(&self) -> bool
        ensures { result ≡ is_dead (without_calls self.now) }
    {
        match &self.instance {
            Some(shared) => shared.kept.dead,
            None => false,
        }
    }

    /// The application has one session at a time, and that is there.
    pub(crate) fn is_taken(&self) -> bool
        ensures { result ≡ is_taken (app_in self.now) (without_calls self.now) }
    {
        match &self.instance {
            Some(shared) => {
                !self.app.is_multi_session() && has_session(self.sessions.as_slice(), shared.number)
            }
            None => false,
        }
    }

    /// A call holds the instance of a number.
    pub(crate) fn is_held(&self, number: u64) -> bool
        ensures { result ≡ option_map_or is_held (instance_at (without_calls self.now) number) false }
    {
        match &self.instance {
            Some(shared) if shared.number == number => shared.kept.holder.is_some(),
            Some(_) | None => false,
        }
    }

    /// The number of the instance for which calls wait, if any do.
    pub(crate) fn awaited_number(&self) -> Option<u64>
        ensures { result ≡ awaited_number (without_calls self.now) }
    {
        let waiter = self.waiting.as_slice().first()?;
        Some(waiter.instance)
    }

    /// Destroy follows: no session is opened on the instance, and it isn't kept alive.
    #[tactic(auto, using(crate::proofs::Destroying::destroy_so))]
    pub(crate) fn destroys(&self, instance: u64) -> bool
        ensures { destroy_where result ≡ destroy_after (app_in self.now) (sessions_of self.now.sessions.items) instance }
    {
        !has_opened(self.sessions.as_slice(), instance) && !self.app.keeps_alive()
    }

    /// The same, once the session of this number is gone.
    #[tactic(auto, using(crate::proofs::Destroying::destroy_so))]
    pub(crate) fn destroys_beside(&self, session: u64, instance: u64) -> bool
        ensures { destroy_where result
            ≡ destroy_after (app_in self.now) (remove (sessions_of self.now.sessions.items) session) instance }
    {
        !has_opened_beside(self.sessions.as_slice(), session, instance) && !self.app.keeps_alive()
    }
}
