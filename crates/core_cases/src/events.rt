//! What is printed of a session's own events, and of a group's.
use anyhow::Result;
use group_solo::GroupEvent;
use own_model::{BackInput, OwnEvent, OwnInput};
use std::fmt::Write;

/// What came of the parameters of a call.
fn input_word(input: &OwnInput) -> &'static str {
    match input {
        OwnInput::Copied(_) => "copied",
        OwnInput::Faulty => "faulty",
        OwnInput::Unread => "unread",
    }
}

/// What a call came back with.
fn back_word(input: &BackInput) -> &'static str {
    match input {
        BackInput::Nothing => "nothing",
        BackInput::Buffer => "buffer",
        BackInput::NoBuffer => "no-buffer",
        BackInput::Reply(_) => "reply",
    }
}

/// Behind the word of a call that comes in: whether it has an area.
fn area_word(area: bool) -> &'static str {
    if area { " area" } else { "" }
}

/// Tells an event: `open`, `invoke FUNCTION INPUT`, `close`, `cancel`, `seen CALL STEPS`, `back CALL INPUT`, `out CALL` or
/// `limited`; the first three with ` area` behind them where the call has one. Numbers are decimal.
fn tell_event(event: &OwnEvent, told: &mut String) -> Result<()> {
    match event {
        OwnEvent::Open { area, .. } => write!(told, "open{}", area_word(*area))?,
        OwnEvent::Invoke { func, input, area } => {
            write!(
                told,
                "invoke {func} {}{}",
                input_word(input),
                area_word(*area)
            )?;
        }
        OwnEvent::Close { area } => write!(told, "close{}", area_word(*area))?,
        OwnEvent::Cancel => write!(told, "cancel")?,
        OwnEvent::Seen { call, steps } => write!(told, "seen {call} {steps}")?,
        OwnEvent::Back { call, input } => write!(told, "back {call} {}", back_word(input))?,
        OwnEvent::Out { call } => write!(told, "out {call}")?,
        OwnEvent::Limited => write!(told, "limited")?,
    }
    Ok(())
}

/// Tells a line of events: each behind a comma but the first.
pub(crate) fn tell_events(events: &[OwnEvent], told: &mut String) -> Result<()> {
    let mut before = "  events ";
    for event in events {
        write!(told, "{before}")?;
        tell_event(event, told)?;
        before = ", ";
    }
    writeln!(told)?;
    Ok(())
}

/// Behind the word of an open: whether a shared limit stopped it.
fn limited_word(limited: bool) -> &'static str {
    if limited { " limited" } else { "" }
}

/// What an open that finds its instance gone is told of the pages for a new one.
fn room_word(enough: bool) -> &'static str {
    if enough { "enough" } else { "short" }
}

/// Tells an event of a group: `open INPUT`, with ` limited` behind it where a shared limit stopped it, `invoke SESSION
/// FUNCTION INPUT`, `close SESSION`, `cancel SESSION`, `seen CALL STEPS`, `room CALL PAGES`, `back CALL INPUT` or `out CALL`;
/// the first three with ` area` behind them where the call has one. Numbers are decimal.
fn tell_group_event(event: &GroupEvent, told: &mut String) -> Result<()> {
    match event {
        GroupEvent::Open {
            input,
            limited,
            area,
            ..
        } => {
            let limited = limited_word(*limited);
            let area = area_word(*area);
            write!(told, "open {}{limited}{area}", input_word(input))?;
        }
        GroupEvent::Invoke {
            session,
            func,
            input,
            area,
        } => {
            let input = input_word(input);
            write!(told, "invoke {session} {func} {input}{}", area_word(*area))?;
        }
        GroupEvent::Close { session, area } => {
            write!(told, "close {session}{}", area_word(*area))?;
        }
        GroupEvent::Cancel { session } => write!(told, "cancel {session}")?,
        GroupEvent::Seen { call, steps } => write!(told, "seen {call} {steps}")?,
        GroupEvent::Room { call, enough } => write!(told, "room {call} {}", room_word(*enough))?,
        GroupEvent::Back { call, input } => write!(told, "back {call} {}", back_word(input))?,
        GroupEvent::Out { call } => write!(told, "out {call}")?,
    }
    Ok(())
}

/// Tells a line of a group's events: each behind a comma but the first.
pub(crate) fn tell_group_events(events: &[GroupEvent], told: &mut String) -> Result<()> {
    let mut before = "  events ";
    for event in events {
        write!(told, "{before}")?;
        tell_group_event(event, told)?;
        before = ", ";
    }
    writeln!(told)?;
    Ok(())
}
