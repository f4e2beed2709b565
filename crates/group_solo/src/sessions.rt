//! The sessions by their numbers.
ghost use Rattle.std.specs.Prelude.{◌≡◌, ◌==◌, ◌&&◌, IfSome, find, not, length, position, true, ◌<◌, ◌+◌, ◌^◌, Some, vec_capacity, vec_len};
ghost use Rattle.std.specs.List.{AllByRecursion, list_any};
ghost use Rattle.std.specs.Option.{option_copied, option_map};
ghost use Rattle.base.specs.NumberMap.{IsRising, get, insert, remove};
ghost use Rattle.group_model.specs.Group.{has_opened, has_session, opened_with};
ghost use Rattle.group_solo.specs.Standing.{session_of, sessions_of};

use crate::group::GroupSolo;
use crate::kept_session::KeptSession;

/// A session with its number.
pub(crate) type Numbered = (u64, KeptSession);

/// The entry of a number, if it is there.
fn entry_at(sessions: &[Numbered], number: u64) -> Option<&Numbered>
    ensures { option_copied result ≡ find (λ entry. entry.0 == number) sessions.now }
{
    sessions.iter().find(|entry| entry.0 == number)
}

/// The session of a number, if it is there.
pub(crate) fn session_at(sessions: &[Numbered], number: u64) -> Option<KeptSession>
    ensures { option_map session_of result ≡ get (sessions_of sessions.now) number }
{
    let Some(entry) = entry_at(sessions, number) else {
        return None;
    };
    Some(entry.1)
}

/// Of these entries, one is opened on the instance of this number.
fn any_opened(sessions: &[Numbered], instance: u64) -> bool
    ensures { result ≡ list_any (λ entry. (entry.1.instance == instance) && entry.1.opened) sessions.now }
{
    sessions
        .iter()
        .any(|entry| entry.1.instance == instance && entry.1.opened)
}

/// One of the sessions is.
pub(crate) fn has_opened(sessions: &[Numbered], instance: u64) -> bool
    ensures { result ≡ has_opened (sessions_of sessions.now) instance }
{
    any_opened(sessions, instance)
}

/// Of these entries, one beside that of a number is opened on the instance.
fn any_opened_beside(sessions: &[Numbered], number: u64, instance: u64) -> bool
    ensures { result ≡ list_any (λ entry. not (entry.0 == number) && ((entry.1.instance == instance) && entry.1.opened)) sessions.now }
{
    sessions.iter().any(|entry| entry.0 != number
        && (entry.1.instance == instance && entry.1.opened))
}

/// One of the sessions beside that of a number is.
pub(crate) fn has_opened_beside(sessions: &[Numbered], number: u64, instance: u64) -> bool
    ensures { result ≡ has_opened (remove (sessions_of sessions.now) number) instance }
{
    any_opened_beside(sessions, number, instance)
}

/// Of these entries, one is there for the instance.
fn any_there(sessions: &[Numbered], instance: u64) -> bool
    ensures { result ≡ list_any (λ entry. entry.1.instance == instance) sessions.now }
{
    sessions.iter().any(|entry| entry.1.instance == instance)
}

/// One of the sessions is there for it, opened or being opened.
pub(crate) fn has_session(sessions: &[Numbered], instance: u64) -> bool
    ensures { result ≡ has_session (sessions_of sessions.now) instance }
{
    any_there(sessions, instance)
}

/// Where the session of a number stands.
fn place_of(sessions: &[Numbered], number: u64) -> Option<usize>
    ensures place { result ≡ position (λ entry. entry.0 == number) sessions.now }
    ensures inside { IfSome result (λ place. place < length sessions.now) }
{
    sessions.iter().position(|entry| entry.0 == number)
}

/// A session that is opened with the word that the application keeps.
fn opened(session: KeptSession, context: u32) -> KeptSession
    ensures { result ≡ record session { context = context; opened = true } }
{
    KeptSession {
        context,
        opened: true,
        ..session
    }
}

/// Opens the session of a number, if it is there, with the word that the application keeps.
fn open_session(sessions: &mut [Numbered], number: u64, context: u32)
    ensures { IsRising (sessions_of sessions.old)
        → sessions_of sessions.new ≡ opened_with (sessions_of sessions.old) number context }
{
    let Some(place) = place_of(sessions, number) else {
        return;
    };
    let session = sessions[place].1;
    sessions[place] = (number, opened(session, context));
}

impl GroupSolo {
    /// The session of a number is opened, if it is there, with the word that the application keeps.
    pub(crate) fn open_session(&mut self, number: u64, context: u32)
        ensures sessions { IsRising (sessions_of self.old.sessions.items)
            → sessions_of self.new.sessions.items ≡ opened_with (sessions_of self.old.sessions.items) number context }
        ensures stays { self.new ≡ record self.old { sessions = self.new.sessions } }
    {
        open_session(self.sessions.as_mut_slice(), number, context);
    }

    /// That session is gone.
    pub(crate) fn remove_session(&mut self, number: u64)
        ensures sessions { sessions_of self.new.sessions.items ≡ remove (sessions_of self.old.sessions.items) number }
        ensures stays { self.new ≡ record self.old { sessions = self.new.sessions } }
    {
        self.sessions.retain(|entry| entry.0 != number);
    }

    /// A session gets the next number, where there is room for it.
    #[tactic(auto, using(crate::proofs::SessionMaps::added))]
    pub(crate) fn add_session(&mut self, session: KeptSession)
        requires { vec_len self.old.sessions < vec_capacity self.old.sessions }
        ensures sessions { AllByRecursion (λ entry. entry.0 < self.old.next_session) (sessions_of self.old.sessions.items)
            → sessions_of self.new.sessions.items
            ≡ insert (sessions_of self.old.sessions.items) self.old.next_session (session_of session) }
        ensures next { self.old.next_session + 1 < 2 ^ 64 → self.new.next_session ≡ self.old.next_session + 1 }
        ensures stays { self.new ≡ record self.old {
          sessions = self.new.sessions;
          next_session = self.new.next_session;
        } }
    {
        self.sessions.push_reserved((self.next_session, session));
        self.next_session = self.next_session.saturating_add(1);
    }
}
