//! What is noted of a realm as the journal is done again.
ghost use Rattle.std.specs.Prelude.{◌≡◌, ◌<◌, ◌+◌, ◌^◌, ◌∷◌, ◌++◌, [], IfOk, Some, None};
ghost use Rattle.std.specs.Option.{option_and_then};
ghost use Rattle.base.specs.NumberMap.{get, insert};
ghost use Rattle.kernel_model.specs.Kernel.{PendingCall};
ghost use Rattle.realm_model.specs.Reading as realm;
ghost use Rattle.realm_notes.specs.Arriving.{event_as};
ghost use Rattle.realm_notes.specs.Noted.{AreNoted, HasFinishedAs, HasNumbersLeft, IsLeft, has_entered, with_away, with_input, with_resumed, with_room, with_seen, with_told};
ghost use Rattle.realm_notes.specs.Realms.{realm_of};

use crate::arriving::{NewEvent, Resumed, event_in};
use crate::calls::ArrivingCall;
use crate::leaving::{reply_of, wake_of};
use crate::log::BoxedEntry;
use crate::numbering::Numbering;
use crate::realm::Realm;
use crate::sessions::keep;
use base::NoMemory;
use boxed::Boxed;
use frame_pool::Pages;
use group_model::{GroupEvent, GroupReply};
use own_model::{BackInput, OwnReply};
use realm_model::RealmEvent;
use rpc_cont::Cont;
use std::alloc::Global;
use std::collections::BTreeMap;
use std::mem;
use uuid::Uuid;

/// The most processors that a core may have.
const MOST_CPUS: usize = 8;

/// What is noted of a realm.
#[derive(Drop)]
pub(crate) struct Notes {
    pub(crate) realm: Realm,
    /// The UUID of its application, once an open has come in.
    uuid: Option<Uuid>,
    /// The realm's numbers of the sessions that its opens got, by the kernel's.
    sessions: BTreeMap<u32, u32>,
    /// The number of the next one.
    next_session: u32,
    numbering: Numbering,
    /// By its number, whether a processor is inside whose new call, of the one session's client, found no slot while the
    /// session was there.
    turned_away: [bool; MOST_CPUS],
    log: Vec<BoxedEntry>,
}

impl Notes {
    /// Nothing is noted of this realm.
    pub(crate) fn new(alloc: Global, of: Realm) -> Notes
        ensures noted { AreNoted result realm.no_notes }
        ensures realm { result.realm ≡ of }
    {
        Notes {
            realm: of,
            uuid: None,
            sessions: BTreeMap::new(alloc),
            next_session: 0,
            numbering: Numbering::new(),
            turned_away: [false; MOST_CPUS],
            log: Vec::new(alloc),
        }
    }

    /// The UUID of the realm's application, once an open has come in.
    pub(crate) fn uuid(&self) -> Option<Uuid>
        ensures { (notes : realm.Notes) → AreNoted self.now notes → result ≡ notes.uuid }
    {
        self.uuid
    }

    /// The realm itself.
    pub(crate) fn into_realm(self) -> Realm
        ensures { result ≡ self.realm }
    {
        let Notes { realm, .. } = self;
        realm
    }

    /// Takes what was listed so far.
    pub(crate) fn take_list(&mut self, alloc: Global) -> Vec<BoxedEntry>
        ensures log { result.items ≡ self.old.log.items }
        ensures taken { self.new.log.items ≡ [] }
        ensures stays { self.new ≡ record self.old { log = self.new.log } }
    {
        mem::replace(&mut self.log, Vec::new(alloc))
    }

    /// The number of the call in this slot, if it is one of the realm.
    pub(crate) fn number_in(&self, slot: u8) -> Option<u32>
        ensures { (notes : realm.Notes) → AreNoted self.now notes → result ≡ get notes.numbering.in_slots slot }
    {
        self.numbering.in_slot(u32::from(slot))
    }

    /// The realm's number of a session of the kernel's, where it is a member's.
    fn number_of(&self, session: u32) -> Option<u32>
        ensures { (notes : realm.Notes) → AreNoted self.now notes → result ≡ realm.number_of (realm_of self.now.realm) notes session }
    {
        self.realm.number_in(&self.sessions, session)
    }

    /// The realm's number of the kernel's session that a call has opened, if it has opened one.
    pub(crate) fn opened_as(&self, session: Option<u32>) -> Option<u32>
        ensures { (notes : realm.Notes) → AreNoted self.now notes
            → result ≡ option_and_then (realm.number_of (realm_of self.now.realm) notes) session }
    {
        match session {
            Some(session) => self.number_of(session),
            None => None,
        }
    }

    /// The event that a new call, whose argument names this session of the kernel's, may be for the realm.
    pub(crate) fn event_of(&self, session: u32, call: ArrivingCall) -> Option<GroupEvent>
        ensures { (notes : realm.Notes) → AreNoted self.now notes
            → result ≡ event_as (realm_of self.now.realm) notes session call }
    {
        match call {
            ArrivingCall::Opens(call) => {
                if self.realm.takes_open(&call) {
                    Some(GroupEvent::Open {
                        input: call.input,
                        login: call.login,
                        limited: call.limited,
                        area: call.area,
                    })
                } else {
                    None
                }
            }
            ArrivingCall::InSession(call) => match self.number_of(session) {
                Some(number) => Some(event_in(call, number)),
                None => None,
            },
        }
    }

    /// Lists an event of the realm, with its reply, if it has one.
    fn list(
        &mut self,
        event: Boxed<RealmEvent>,
        reply: Option<Boxed<GroupReply>>,
    ) -> Result<(), NoMemory>
        ensures log { IfOk result (λ _. self.new.log.items ≡ self.old.log.items ++ (event, reply) ∷ []) }
        ensures stays { self.new ≡ record self.old { log = self.new.log } }
    {
        self.log.push((event, reply))?;
        Ok(())
    }

    /// The kernel's session of this number gets the realm's next one.
    fn add_session(&mut self, session: u32) -> Result<(), NoMemory>
        requires { self.old.next_session + 1 < 2 ^ 32 }
        ensures sessions { IfOk result (λ _. self.new.sessions.entries
            ≡ insert self.old.sessions.entries session self.old.next_session) }
        ensures next { IfOk result (λ _. self.new.next_session ≡ self.old.next_session + 1) }
        ensures stays { self.new ≡ record self.old { sessions = self.new.sessions; next_session = self.new.next_session } }
    {
        keep(&mut self.sessions, session, self.next_session)?;
        self.next_session += 1;
        Ok(())
    }

    /// A call of the realm, in the kernel's session of this number, comes into a slot.
    pub(crate) fn enter(&mut self, slot: u8, session: u32, came: NewEvent) -> Result<(), NoMemory>
        requires slot { slot < 16 }
        requires few { HasNumbersLeft self.old }
        ensures noted { (notes : realm.Notes) → AreNoted self.old notes
            → IfOk result (λ _. AreNoted self.new (has_entered notes slot session came)) }
        ensures realm { self.new.realm ≡ self.old.realm }
    {
        let NewEvent { event, opens, gets } = came;
        self.list(event, None)?;
        self.uuid = opens.or(self.uuid);
        if gets {
            self.add_session(session)?;
        }
        self.numbering.next_in(slot);
        Ok(())
    }

    /// Lists an event of the realm's machine.
    fn list_event(&mut self, alloc: Global, came: GroupEvent) -> Result<(), NoMemory>
        ensures noted { (notes : realm.Notes) → AreNoted self.old notes
            → IfOk result (λ _. AreNoted self.new (realm.with_event notes came)) }
        ensures realm { self.new.realm ≡ self.old.realm }
    {
        let event = Boxed::new(alloc, RealmEvent::Comes(came))?;
        self.list(event, None)
    }

    /// The realm's call of this number sees that it was cancelled, if it does.
    fn list_seen(&mut self, alloc: Global, number: u32, seen: Option<u128>) -> Result<(), NoMemory>
        ensures noted { (notes : realm.Notes) → AreNoted self.old notes
            → IfOk result (λ _. AreNoted self.new (with_seen notes number seen)) }
        ensures realm { self.new.realm ≡ self.old.realm }
    {
        match seen {
            Some(steps) => self.list_event(
                alloc,
                GroupEvent::Seen {
                    call: number,
                    steps,
                },
            ),
            None => Ok(()),
        }
    }

    /// The realm's call of this number finds its instance gone, if it does, and pages for a new one or not.
    fn list_room(&mut self, alloc: Global, number: u32, room: Option<bool>) -> Result<(), NoMemory>
        ensures noted { (notes : realm.Notes) → AreNoted self.old notes
            → IfOk result (λ _. AreNoted self.new (with_room notes number room)) }
        ensures realm { self.new.realm ≡ self.old.realm }
    {
        match room {
            Some(enough) => self.list_event(
                alloc,
                GroupEvent::Room {
                    call: number,
                    enough,
                },
            ),
            None => Ok(()),
        }
    }

    /// The realm's call of this number is given this, if it is given something.
    fn list_input(
        &mut self,
        alloc: Global,
        number: u32,
        input: Option<BackInput>,
    ) -> Result<(), NoMemory>
        ensures noted { (notes : realm.Notes) → AreNoted self.old notes
            → IfOk result (λ _. AreNoted self.new (with_input notes number input)) }
        ensures realm { self.new.realm ≡ self.old.realm }
    {
        match input {
            Some(input) => self.list_event(
                alloc,
                GroupEvent::Back {
                    call: number,
                    input,
                },
            ),
            None => Ok(()),
        }
    }

    /// The realm's call of this number comes back.
    pub(crate) fn resume(
        &mut self,
        alloc: Global,
        number: u32,
        came: Resumed,
    ) -> Result<(), NoMemory>
        ensures noted { (notes : realm.Notes) → AreNoted self.old notes
            → IfOk result (λ _. AreNoted self.new (with_resumed notes number came)) }
        ensures realm { self.new.realm ≡ self.old.realm }
    {
        self.list_seen(alloc, number, came.back.seen)?;
        self.list_room(alloc, number, came.room)?;
        self.list_input(alloc, number, came.back.input)
    }

    /// A processor comes in with a call of the one session's client, and is turned away.
    pub(crate) fn turn_away(&mut self, cpu: u8)
        requires { cpu < 8 }
        ensures noted { (notes : realm.Notes) → AreNoted self.old notes → AreNoted self.new (with_away notes cpu) }
        ensures realm { self.new.realm ≡ self.old.realm }
    {
        self.turned_away[usize::from(cpu)] = true;
    }

    /// A processor whose answer was fixed goes out.
    pub(crate) fn leave_answered(&mut self, alloc: Global, cpu: u8) -> Result<(), NoMemory>
        requires { cpu < 8 }
        ensures noted { (notes : realm.Notes) → AreNoted self.old notes
            → IfOk result (λ _. AreNoted self.new (realm.limit_noted notes cpu)) }
        ensures realm { self.new.realm ≡ self.old.realm }
    {
        if self.turned_away[usize::from(cpu)] {
            self.turned_away[usize::from(cpu)] = false;
            let told = GroupReply {
                reply: OwnReply::Limited,
                opened: None,
            };
            let event = Boxed::new(alloc, RealmEvent::TurnedAway)?;
            let reply = Boxed::new(alloc, told)?;
            self.list(event, Some(reply))?;
        }
        Ok(())
    }

    /// The realm's call of this number goes out with this reply, if something is told of it.
    fn tell(&mut self, alloc: Global, number: u32, told: Option<OwnReply>) -> Result<(), NoMemory>
        ensures log { IfOk result (λ _. self.new.log.items ≡ with_told self.old.log.items number told) }
        ensures stays { self.new ≡ record self.old { log = self.new.log } }
    {
        if let Some(reply) = told {
            let told = GroupReply {
                reply,
                opened: None,
            };
            let out = GroupEvent::Out { call: number };
            let event = Boxed::new(alloc, RealmEvent::Comes(out))?;
            let reply = Boxed::new(alloc, told)?;
            self.list(event, Some(reply))?;
        }
        Ok(())
    }

    /// The realm's call of this number goes out of its slot, in which it was left so.
    pub(crate) fn suspend(
        &mut self,
        alloc: Global,
        slot: u8,
        number: u32,
        cont: &Cont<Pages>,
    ) -> Result<(), NoMemory>
        requires { slot < 16 }
        ensures noted { (notes : realm.Notes) (call : PendingCall) → AreNoted self.old notes → IsLeft slot call cont.now
            → IfOk result (λ _. AreNoted self.new (realm.exit_noted (realm_of self.old.realm) notes slot call number)) }
        ensures realm { self.new.realm ≡ self.old.realm }
    {
        let wake = wake_of(cont);
        let woken = self.numbering.wake_kept(slot, wake);
        let told = reply_of(alloc, cont, woken)?;
        self.tell(alloc, number, told)?;
        self.numbering.with_wake(slot, woken);
        Ok(())
    }

    /// The realm's call of this number goes out of its slot ended, with this reply.
    pub(crate) fn finish(
        &mut self,
        alloc: Global,
        slot: u8,
        number: u32,
        ended: Boxed<GroupReply>,
    ) -> Result<(), NoMemory>
        requires { slot < 16 }
        ensures noted { (notes : realm.Notes) (call : PendingCall) → AreNoted self.old notes
            → HasFinishedAs (realm_of self.old.realm) notes slot call ended
            → IfOk result (λ _. AreNoted self.new (realm.exit_noted (realm_of self.old.realm) notes slot call number)) }
        ensures realm { self.new.realm ≡ self.old.realm }
    {
        let out = GroupEvent::Out { call: number };
        let event = Boxed::new(alloc, RealmEvent::Comes(out))?;
        self.list(event, Some(ended))?;
        self.numbering.forget(slot);
        Ok(())
    }
}
