//! A session, and a registered buffer.

ghost use Rattle.std.specs.Prelude.{◌≡◌, ◌++◌, OnOk};
ghost use Rattle.base.specs.NumberMap.{get};
ghost use Rattle.live_play.specs.State.{buffer_lines, piece_line, piece_lines, pin_text, session_line, text_if};

use crate::digits::{push_address, push_cookie};
use answer_lines::push_numbered;
use session_table::Sessions;
use shm_registry::{Piece, Registry};
use std::alloc::{AllocError, Global};

/// The most pages of a registered buffer.
const MOST_PAGES: usize = 1024;

/// Appends the line of a session, where it is kept.
pub(crate) fn push_session(
    text: &mut Vec<u8>,
    sessions: &Sessions,
    number: u32,
) -> Result<(), AllocError>
    ensures { OnOk result (text.new.items ≡ text.old.items ++ text_if (session_line number) (get sessions.now.kept number)) }
{
    let Some(session) = sessions.find(number) else {
        return Ok(());
    };
    push_numbered(text, b"session ", u64::from(number))?;
    push_numbered(text, b" client ", u64::from(session.client))?;
    push_numbered(text, b" instance ", u64::from(session.instance))?;
    text.extend_from_slice(if session.opened {
        b" opened\n"
    } else {
        b" opening\n"
    })
}

/// Appends the lowest slot that uses a buffer.
fn push_pin(text: &mut Vec<u8>, pin: Option<u8>) -> Result<(), AllocError>
    ensures { OnOk result (text.new.items ≡ text.old.items ++ pin_text pin) }
{
    match pin {
        Some(slot) => push_numbered(text, b" pinned ", u64::from(slot)),
        None => text.extend_from_slice(b" free"),
    }
}

/// Appends the line of a part of a buffer.
fn push_piece(alloc: Global, text: &mut Vec<u8>, piece: Piece) -> Result<(), AllocError>
    ensures { OnOk result (text.new.items ≡ text.old.items ++ piece_line piece) }
{
    text.extend_from_slice(b"piece")?;
    push_address(alloc, text, piece.addr)?;
    push_numbered(text, b" ", u64::from(piece.len))?;
    text.push(b'\n')?;
    Ok(())
}

/// Appends the lines of a registered buffer's pages.
fn push_pieces(
    alloc: Global,
    text: &mut Vec<u8>,
    registry: &Registry,
    cookie: u64,
) -> Result<(), AllocError>
    ensures { OnOk result (text.new.items ≡ text.old.items ++ piece_lines 1024 registry.now cookie 0) }
{
    let mut offset = 0;
    for page in 0..MOST_PAGES {
        let Some(piece) = registry.piece_at(cookie, offset) else {
            break;
        };
        push_piece(alloc, text, piece)?;
        offset += u64::from(piece.len);
    }
    Ok(())
}

/// Appends the lines of a buffer, where it is registered.
pub(crate) fn push_registered(
    alloc: Global,
    text: &mut Vec<u8>,
    registry: &Registry,
    cookie: u64,
) -> Result<(), AllocError>
    ensures { OnOk result (text.new.items ≡ text.old.items
        ++ text_if (λ buffer. buffer_lines registry.now cookie) (get registry.now.buffers cookie)) }
{
    if !registry.contains(cookie) {
        return Ok(());
    }
    text.extend_from_slice(b"buffer")?;
    push_cookie(alloc, text, cookie)?;
    push_pin(text, registry.pinned_by(cookie))?;
    text.push(b'\n')?;
    push_pieces(alloc, text, registry, cookie)
}
