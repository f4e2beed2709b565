//! What two journals show of a realm.
ghost use Rattle.std.specs.Prelude.{◌≡◌};
ghost use Rattle.std.specs.Option.{option_and_then, option_map};
ghost use Rattle.kernel_state.specs.Setup.{application_of};
ghost use Rattle.realm_notes.specs.Realms.{realm_of};
ghost use Rattle.realm_notes.specs.declared.realm.Realm.{Realm as AnyRealm};
ghost use Rattle.session_compare.specs.Realms.{absent_by, if_compared, is_of_one, read_so_far, shown_of};

use crate::reading::ReadsLog;
use crate::same_apps::{if_shared, unless_shared};
use base::NoMemory;
use boxed::Boxed;
use event_journal::Event;
use kernel_state::Application;
use realm_notes::{GroupReply, LogReader, Realm, RealmEvent};
use std::alloc::Global;

/// The realm is one session.
fn is_of_one(realm: &Realm) -> bool
    ensures { result ≡ is_of_one (realm_of realm.now) }
{
    match realm {
        Realm::OneSession(_) => true,
        Realm::AllSessions(_) => false,
    }
}

/// The application, where one session is compared whose instance is its own, or all sessions that share one.
fn if_compared(one: bool, app: Option<Application>) -> Option<Application>
    ensures { option_and_then (if_compared one) (option_map application_of app) ≡ option_map application_of result }
{
    if one {
        unless_shared(app)
    } else {
        if_shared(app)
    }
}

/// In which journal, 1 or 2, all sessions of an application are the first not to be there, where the second has no application of
/// their UUID.
pub(crate) fn absent_in(realm: &Realm) -> u8
    ensures { result ≡ absent_by (realm_of realm.now) }
{
    match realm {
        Realm::OneSession(_) => 1,
        Realm::AllSessions(app) => { if app.is_single() { 2 } else { 1 } }
    }
}

impl ReadsLog for LogReader {
    type LogEvent = Boxed<RealmEvent>;

    type LogReply = Boxed<GroupReply>;

    ghost Whose = { AnyRealm };

    ghost so_far = { read_so_far };

    ghost shown = { shown_of };

    fn read(
        &mut self,
        alloc: Global,
        event: &Event,
    ) -> Result<Option<Vec<(Boxed<RealmEvent>, Option<Boxed<GroupReply>>)>>, NoMemory> {
        self.reads(alloc, event)
    }

    fn compared_app(self) -> Result<Option<Application>, NoMemory> {
        let one = is_of_one(self.realm());
        let app = self.into_app()?;
        Ok(if_compared(one, app))
    }
}
