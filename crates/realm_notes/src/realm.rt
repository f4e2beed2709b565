//! Whose notes are taken, and in what one session and all sessions of an application differ.
ghost use Rattle.std.specs.Prelude.{◌≡◌};
ghost use Rattle.kernel_state.specs.Meaning.{booted_of};
ghost use Rattle.kernel_state.specs.Tables.{tables_of};
ghost use Rattle.realm_model.specs.Realm.{number_in};
ghost use Rattle.realm_notes.specs.Realms.{counts, finds_gone, is_in_session, is_open, is_waiting, realm_of, room_as, takes_open};

use crate::calls::NewOpen;
use crate::sessions::number_at;
use begin_call::has_pages_for;
use frame_pool::Pages;
use job_model::CallKind;
use kernel_state::{Application, Carried, Core, Tables};
use rpc_cont::{Cont, Phase};
use std::collections::BTreeMap;

/// Those who share an instance: one session of an application whose sessions share none, or all sessions of an application
/// whose sessions share one.
#[derive(Drop)]
pub enum Realm {
    /// The session that the kernel gave this number.
    OneSession(u32),
    /// All sessions of the application.
    AllSessions(Application),
}

/// The call is an open.
pub(crate) fn is_open(kind: CallKind) -> bool
    ensures { result ≡ is_open kind }
{
    match kind {
        CallKind::Open => true,
        CallKind::Invoke { .. } | CallKind::Close | CallKind::Settled => false,
    }
}

/// The call waits for its instance.
fn is_waiting(phase: Phase) -> bool
    ensures { result ≡ is_waiting phase }
{
    match phase {
        Phase::Waits => true,
        Phase::Runs | Phase::Asks | Phase::Ends => false,
    }
}

/// The call is an open that has waited, and its instance is gone.
fn finds_gone(tables: &Tables, cont: &Cont<Pages>) -> bool
    ensures { result ≡ finds_gone (tables_of tables.now) cont.now }
{
    is_open(cont.kind) && is_waiting(cont.phase) && !tables.is_kept(cont.instance)
}

/// A new call is in the session of this number: an open only where it runs at once.
fn is_in_session(member: u32, call: &Carried) -> bool
    ensures { result ≡ is_in_session member call.now }
{
    match call {
        Carried::Nothing => false,
        Carried::Running(cont) => cont.session == member,
        Carried::Resting(cont) => { cont.session == member && !matches!(cont.kind, CallKind::Open) }
    }
}

impl Realm {
    /// The realm's number of a session of the kernel's, where it is a member's: one session is number 0, and others have those
    /// that were kept for them.
    pub(crate) fn number_in(&self, numbers: &BTreeMap<u32, u32>, session: u32) -> Option<u32>
        ensures { result ≡ number_in (realm_of self.now) numbers.now.entries session }
    {
        match self {
            Realm::OneSession(member) => { if session == *member { Some(0) } else { None } }
            Realm::AllSessions(_) => number_at(numbers, session),
        }
    }

    /// Whether an open may be an event of the realm.
    pub(crate) fn takes_open(&self, call: &NewOpen) -> bool
        ensures { result ≡ takes_open (realm_of self.now) call.now }
    {
        match self {
            Realm::OneSession(_) => call.reserves,
            Realm::AllSessions(app) => call.uuid == app.uuid(),
        }
    }

    /// Whether the new call that a processor carries counts for the realm, where it may be an event of it.
    pub(crate) fn counts(&self, call: &Carried) -> bool
        ensures { result ≡ counts (realm_of self.now) call.now }
    {
        match self {
            Realm::OneSession(member) => is_in_session(*member, call),
            Realm::AllSessions(_) => true,
        }
    }

    /// Where the call is an open of all sessions that finds its instance gone: whether there are pages for a new one.
    pub(crate) fn room_of(&self, core: &Core, cont: &Cont<Pages>) -> Option<bool>
        ensures { result ≡ room_as (realm_of self.now) (booted_of core.now) (tables_of core.now.parts.tables) cont.now }
    {
        match self {
            Realm::OneSession(_) => None,
            Realm::AllSessions(app) => {
                if finds_gone(&core.parts.tables, cont) {
                    let (setup, tables) = (&core.parts.setup, &core.parts.tables);
                    Some(has_pages_for(setup, tables, app))
                } else {
                    None
                }
            }
        }
    }
}
