ghost use Rattle.std.specs.Prelude.{◌≡◌, ℕ, ◌+◌, ◌<◌, ◌≤◌, ◌↔◌, ◌==◌, [], ◌∷◌, length, sum_by, IsTrue, IsSome, IsNone, IfSome, IsOk, IfOk, OnOk, OnErr, IsErrOf, IsSomeAnd, Some, None};
ghost use Rattle.std.specs.List.{AllByRecursion, list_any};
ghost use Rattle.base.specs.NumberMap.{NumberMap, get, insert, remove};
ghost use Rattle.shm_registry.specs.Pieces.{IsBuffer, IsPieceOfRam};
ghost use Rattle.shm_registry.specs.Registered.{IsSound, is_pin, lowest_slot, piece_at, pieces_of, with_pin, without_slot};

use crate::fault::{RegisterFault, ResolveFault, UnregisterFault};
use crate::page_buffer::PageBuffer;
use crate::piece::{Piece, first_piece, pieces};
use crate::pin::Pin;
use base::{NoMemory, NumberTable};
use std::alloc::Global;
use std::marker::Model;

/// How many buffers may be registered.
pub const REGISTRY_LIMIT: usize = 64;

/// The most pins: one of each slot on each buffer.
const PIN_LIMIT: usize = 1024;

/// The registered buffers and their pins. Its memory is taken when it is made.
#[derive(Drop)]
pub struct Registry {
    // By their cookies.
    buffers: NumberTable<PageBuffer, REGISTRY_LIMIT>,
    pins: Vec<Pin>,
}

impl Model for Registry {
    ghost use Rattle.std.specs.Prelude.{◌≤◌};
    ghost use Rattle.std.specs.Vec.{vec_capacity};
    ghost use Rattle.shm_registry.specs.Registered.{IsSound, Registered};

    ghost Value = { Registered };

    ghost view = { λ r. record { buffers = r.buffers; pins = r.pins.items } };

    ghost invariant = { λ r. IsSound (record { buffers = r.buffers; pins = r.pins.items })
        × (1024 ≤ vec_capacity r.pins) };
}

impl Registry {
    /// No buffers, with room for 64.
    pub fn new(alloc: Global) -> Result<Registry, NoMemory>
        ensures { IfOk result (λ registry. registry ≡ record { buffers = []; pins = [] }) }
    {
        Ok(Registry {
            buffers: NumberTable::new(alloc)?,
            pins: Vec::with_capacity(alloc, PIN_LIMIT)?,
        })
    }

    /// How many buffers are registered.
    pub fn len(&self) -> usize
        ensures len { result ≡ length self.now.buffers }
        ensures sound { IsSound self.now }
    {
        self.buffers.len()
    }

    /// Whether the cookie is registered.
    pub fn contains(&self, cookie: u64) -> bool
        ensures { IsTrue result ↔ IsSome (get self.now.buffers cookie) }
    {
        self.buffers.contains(cookie)
    }

    /// Registers the buffer.
    pub fn register(&mut self, cookie: u64, buffer: PageBuffer) -> Result<(), RegisterFault>
        requires { IsBuffer buffer }
        ensures added { OnOk result (self.new
            ≡ record self.old { buffers = insert self.old.buffers cookie buffer }) }
        ensures ok { IsOk result
            ↔ (IsNone (get self.old.buffers cookie) × (length self.old.buffers < 64)) }
        ensures repeated { IsErrOf result (RegisterFault.Repeated cookie)
            ↔ IsSome (get self.old.buffers cookie) }
        ensures full { IsErrOf result RegisterFault.Full
            ↔ (IsNone (get self.old.buffers cookie) × (length self.old.buffers ≡ 64)) }
        ensures refused { OnErr result (self.new ≡ self.old) }
    {
        if self.buffers.contains(cookie) {
            return Err(RegisterFault::Repeated(cookie));
        }
        if self.buffers.is_full() {
            return Err(RegisterFault::Full);
        }
        self.buffers.insert(cookie, buffer);
        Ok(())
    }

    /// Forgets the buffer, and gives it back.
    pub fn unregister(&mut self, cookie: u64) -> Result<PageBuffer, UnregisterFault>
        ensures kept { IfOk result (λ buffer. get self.old.buffers cookie ≡ Some buffer) }
        ensures removed { OnOk result (self.new
            ≡ record self.old { buffers = remove self.old.buffers cookie }) }
        ensures unknown { IsErrOf result UnregisterFault.Unknown
            ↔ IsNone (get self.old.buffers cookie) }
        ensures pinned { (slot : ℕ) → IsErrOf result (UnregisterFault.Pinned slot)
            ↔ (lowest_slot self.old.pins cookie ≡ Some slot) }
        ensures refused { OnErr result (self.new ≡ self.old) }
    {
        if !self.buffers.contains(cookie) {
            return Err(UnregisterFault::Unknown);
        }
        if let Some(slot) = lowest_slot(self.pins.as_slice(), cookie) {
            return Err(UnregisterFault::Pinned(slot));
        }
        Ok(self.buffers.remove(cookie))
    }

    /// The lowest slot that uses the buffer of the cookie, if one does.
    pub fn pinned_by(&self, cookie: u64) -> Option<u8>
        ensures { result ≡ lowest_slot self.now.pins cookie }
    {
        lowest_slot(self.pins.as_slice(), cookie)
    }

    /// The slot uses the buffer of the cookie. A pin that is there isn't added again.
    pub fn pin(&mut self, cookie: u64, slot: u8)
        requires kept { IsSome (get self.old.buffers cookie) }
        requires slot { slot < 16 }
        ensures { self.new ≡ record self.old { pins = with_pin self.old.pins cookie slot } }
    {
        if !is_pinned(self.pins.as_slice(), cookie, slot) {
            self.pins.push(Pin { cookie, slot }).unwrap();
        }
    }

    /// The slot uses no buffer any more.
    pub fn unpin(&mut self, slot: u8)
        ensures { self.new ≡ record self.old { pins = without_slot self.old.pins slot } }
    {
        self.pins.retain(|pin| pin.slot != slot);
    }

    /// The part of the cookie's buffer from `offset` on that lies in one page: `None` where the cookie isn't registered, or
    /// the offset isn't below the buffer's size. Takes no memory.
    pub fn piece_at(&self, cookie: u64, offset: u64) -> Option<Piece>
        ensures piece { result ≡ piece_at self.now.buffers cookie offset }
        ensures in_ram { IfSome result IsPieceOfRam }
    {
        let buffer = self.buffers.get(cookie)?;
        if offset >= buffer.size {
            return None;
        }
        let start = u64::from(buffer.offset) + offset;
        let left = buffer.size - offset;
        Some(first_piece(buffer.pages.as_slice(), start, left))
    }

    /// The pieces of the `size` bytes at `offset` in the buffer of the cookie.
    pub fn resolve(
        &self,
        alloc: Global,
        cookie: u64,
        offset: u64,
        size: u64,
    ) -> Result<Vec<Piece>, ResolveFault>
        ensures pieces { IfOk result (λ pieces.
            pieces_of self.now.buffers cookie offset size ≡ Some pieces.items) }
        ensures in_ram { IfOk result (λ pieces. AllByRecursion IsPieceOfRam pieces.items) }
        ensures size { IfOk result (λ pieces.
            sum_by (λ piece. piece.len) pieces.items ≡ size) }
        ensures unknown { IsErrOf result ResolveFault.Unknown
            ↔ IsNone (get self.now.buffers cookie) }
        ensures range { IsErrOf result ResolveFault.Range
            ↔ IsSomeAnd (get self.now.buffers cookie) (λ buffer. buffer.size < offset + size) }
    {
        let Some(buffer) = self.buffers.get(cookie) else {
            return Err(ResolveFault::Unknown);
        };
        if size > buffer.size || offset > buffer.size - size {
            return Err(ResolveFault::Range);
        }
        let start = u64::from(buffer.offset) + offset;
        Ok(pieces(alloc, buffer.pages.as_slice(), start, size)?)
    }
}

/// Whether the slot pins the cookie.
fn is_pinned(pins: &[Pin], cookie: u64, slot: u8) -> bool
    ensures { result ≡ list_any (is_pin cookie slot) pins.now }
{
    pins.iter()
        .any(|pin| pin.cookie == cookie && pin.slot == slot)
}

/// The lowest slot that pins the cookie.
fn lowest_slot(pins: &[Pin], cookie: u64) -> Option<u8>
    ensures { result ≡ lowest_slot pins.now cookie }
{
    pins.iter()
        .filter(|pin| pin.cookie == cookie)
        .map(|pin| pin.slot)
        .min()
}
