//! Whether two events of a realm are the same.
ghost use Rattle.std.specs.Prelude.{◌≡◌, ◌↔◌, IsTrue};
ghost use Rattle.group_model.specs.declared.group_event.GroupEvent.TheVariants.{Back, Cancel, Close, Invoke, Open, Out, Room, Seen};

use crate::differing::SameEvent;
use crate::same_inputs::{is_same_back, is_same_input};
use crate::same_params::is_same_login;
use boxed::Boxed;
use own_model::{BackInput, OwnInput};
use realm_notes::{GroupEvent, RealmEvent};
use ta_params::Login;

/// The event is this open.
fn is_open(event: &GroupEvent, input: &OwnInput, login: &Login, limited: bool, area: bool) -> bool
    ensures { IsTrue result ↔ (event.now ≡ Open input.now login.now limited area) }
{
    match event {
        GroupEvent::Open {
            input: its,
            login: its_login,
            limited: its_limited,
            area: its_area,
        } => {
            is_same_input(its, input)
                && is_same_login(its_login, login)
                && *its_limited == limited
                && *its_area == area
        }
        _ => false,
    }
}

/// The event is this invoke.
fn is_invoke(event: &GroupEvent, session: u32, func: u32, input: &OwnInput, area: bool) -> bool
    ensures { IsTrue result ↔ (event.now ≡ Invoke session func input.now area) }
{
    match event {
        GroupEvent::Invoke {
            session: its_session,
            func: its_func,
            input: its,
            area: its_area,
        } => {
            *its_session == session
                && *its_func == func
                && is_same_input(its, input)
                && *its_area == area
        }
        _ => false,
    }
}

/// The event is this close.
fn is_close(event: &GroupEvent, session: u32, area: bool) -> bool
    ensures { IsTrue result ↔ (event.now ≡ Close session area) }
{
    match event {
        GroupEvent::Close {
            session: its,
            area: its_area,
        } => *its == session && *its_area == area,
        _ => false,
    }
}

/// The event is a cancel in this session.
fn is_cancel(event: &GroupEvent, session: u32) -> bool
    ensures { IsTrue result ↔ (event.now ≡ Cancel session) }
{
    match event {
        GroupEvent::Cancel { session: its } => *its == session,
        _ => false,
    }
}

/// By the event, this call sees after so many steps that it was cancelled.
fn is_seen(event: &GroupEvent, call: u32, steps: u128) -> bool
    ensures { IsTrue result ↔ (event.now ≡ Seen call steps) }
{
    match event {
        GroupEvent::Seen {
            call: its,
            steps: its_steps,
        } => *its == call && *its_steps == steps,
        _ => false,
    }
}

/// By the event, this open finds its instance gone, and pages enough for a new one or not.
fn is_room(event: &GroupEvent, call: u32, enough: bool) -> bool
    ensures { IsTrue result ↔ (event.now ≡ Room call enough) }
{
    match event {
        GroupEvent::Room {
            call: its,
            enough: its_enough,
        } => *its == call && *its_enough == enough,
        _ => false,
    }
}

/// By the event, this call comes back with this.
fn is_back(event: &GroupEvent, call: u32, input: &BackInput) -> bool
    ensures { IsTrue result ↔ (event.now ≡ Back call input.now) }
{
    match event {
        GroupEvent::Back {
            call: its,
            input: its_input,
        } => *its == call && is_same_back(its_input, input),
        _ => false,
    }
}

/// By the event, this call goes out.
fn is_out(event: &GroupEvent, call: u32) -> bool
    ensures { IsTrue result ↔ (event.now ≡ Out call) }
{
    match event {
        GroupEvent::Out { call: its } => *its == call,
        _ => false,
    }
}

/// Both events of a machine are the same.
fn is_same_event(one: &GroupEvent, other: &GroupEvent) -> bool
    ensures { IsTrue result ↔ (one.now ≡ other.now) }
{
    match one {
        GroupEvent::Open {
            input,
            login,
            limited,
            area,
        } => is_open(other, input, login, *limited, *area),
        GroupEvent::Invoke {
            session,
            func,
            input,
            area,
        } => is_invoke(other, *session, *func, input, *area),
        GroupEvent::Close { session, area } => is_close(other, *session, *area),
        GroupEvent::Cancel { session } => is_cancel(other, *session),
        GroupEvent::Seen { call, steps } => is_seen(other, *call, *steps),
        GroupEvent::Room { call, enough } => is_room(other, *call, *enough),
        GroupEvent::Back { call, input } => is_back(other, *call, input),
        GroupEvent::Out { call } => is_out(other, *call),
    }
}

/// Both events of a realm are the same.
fn is_same(one: &RealmEvent, other: &RealmEvent) -> bool
    ensures { IsTrue result ↔ (one.now ≡ other.now) }
{
    match (one, other) {
        (RealmEvent::Comes(came), RealmEvent::Comes(other_came)) => is_same_event(came, other_came),
        (RealmEvent::TurnedAway, RealmEvent::TurnedAway) => true,
        _ => false,
    }
}

impl SameEvent for Boxed<RealmEvent> {
    fn is_same(&self, other: &Boxed<RealmEvent>) -> bool {
        is_same(self.get(), other.get())
    }
}
