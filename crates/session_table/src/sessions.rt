ghost use Rattle.std.specs.Prelude.{◌≡◌, ◌+◌, [], IfOk, IfSome, IsSome, MatchOption, None, count_by, is_some, length};
ghost use Rattle.std.specs.Option.{option_copied};
ghost use Rattle.base.specs.NumberMap.{get, insert, remove};
ghost use Rattle.session_table.specs.Session.{is_of, is_opened_of, reserved_for};
ghost use Rattle.session_table.specs.Sessions.{IsBeingOpened, IsNumbered, has_room, settled};

use crate::session::Session;
use base::{NoMemory, NumberTable};
use std::alloc::Global;
use std::marker::Model;
use ta_params::Login;

/// The most sessions that are kept at a time.
pub const MAX_SESSIONS: usize = 64;

/// The sessions by their numbers, and the number that the next one gets. Numbers rise from 1, and none is
/// given twice.
#[derive(Drop)]
pub struct Sessions {
    kept: NumberTable<Session, MAX_SESSIONS>,
    /// The last number that was given, 0 at the start.
    given: u32,
}

impl Model for Sessions {
    ghost use Rattle.std.specs.Prelude.{◌+◌};
    ghost use Rattle.session_table.specs.Sessions.{AreGiven, SessionTable};

    ghost Value = { SessionTable };

    ghost view = { λ s. record { kept = s.kept; next = s.given + 1 } };

    ghost invariant = { λ s. AreGiven s.kept (s.given + 1) };
}

/// How many sessions an instance has.
#[derive(Clone, Copy)]
pub struct Users {
    /// Those that are opened or being opened.
    pub all: u32,
    /// Those that are opened.
    pub opened: u32,
}

impl Sessions {
    /// No session. No call after this one takes memory.
    pub fn new(alloc: Global) -> Result<Sessions, NoMemory>
        ensures { IfOk result (λ sessions. sessions ≡ record { kept = []; next = 1 }) }
    {
        let kept = NumberTable::new(alloc)?;
        Ok(Sessions { kept, given: 0 })
    }

    /// Whether another session can be added: fewer than 64 are kept, and the last number was not given.
    pub fn has_room(&self) -> bool
        ensures room { result ≡ has_room self.now }
        ensures numbered { IsNumbered self.now }
    {
        self.kept.len() < MAX_SESSIONS && self.given < u32::MAX
    }

    /// Adds a session that is not opened, and tells its number. None exactly where there is no room.
    pub fn reserve(&mut self, client: u32, login: Login, instance: u32) -> Option<u32>
        ensures some { is_some result ≡ has_room self.old }
        ensures number { IfSome result (λ number. number ≡ self.old.next) }
        ensures fresh { IfSome result (λ number. get self.old.kept number ≡ None) }
        ensures after { MatchOption result
            (self.new ≡ self.old)
            (λ number. self.new ≡ record {
              kept = insert self.old.kept number (reserved_for client login instance);
              next = number + 1;
            }) }
    {
        if !self.has_room() {
            return None;
        }
        self.given += 1;
        let session = Session::reserved(client, login, instance);
        self.kept.insert(u64::from(self.given), session);
        Some(self.given)
    }

    /// The session of this number, if it is kept.
    pub fn find(&self, number: u32) -> Option<&Session>
        ensures { option_copied result ≡ get self.now.kept number }
    {
        self.kept.get(u64::from(number))
    }

    /// How many sessions are kept: those that are opened or being opened.
    pub fn len(&self) -> usize
        ensures { result ≡ length self.now.kept }
    {
        self.kept.len()
    }

    /// How many sessions the instance has.
    pub fn users(&self, instance: u32) -> Users
        ensures all { result.all ≡ count_by (λ entry. is_of instance entry.1) self.now.kept }
        ensures opened { result.opened ≡ count_by (λ entry. is_opened_of instance entry.1) self.now.kept }
    {
        let kept = self.kept.entries();
        let all = kept.iter().filter(|entry| entry.1.is_of(instance));
        let opened = kept.iter().filter(|entry| entry.1.is_opened_of(instance));
        Users {
            all: all.count() as u32,
            opened: opened.count() as u32,
        }
    }

    /// Opens a session that is being opened, with the context that the application gave it.
    pub fn settle(&mut self, number: u32, context: u32)
        requires { IsBeingOpened self.old number }
        ensures { self.new ≡ record self.old { kept = settled self.old.kept number context } }
    {
        let session = self.kept.get_mut(u64::from(number));
        *session = session.opened_with(context);
    }

    /// Takes a session away. Its number is not given again.
    pub fn remove(&mut self, number: u32)
        requires { IsSome (get self.old.kept number) }
        ensures { self.new ≡ record self.old { kept = remove self.old.kept number } }
    {
        self.kept.remove(u64::from(number));
    }
}
