//! To read all the data of an object, for the tag that it has and the one that it is to have.
ghost use Rattle.std.specs.Prelude.{◌≡◌, None, true, IfSome, ℕ, ◌+◌, ◌-◌, ◌^◌, ◌<◌, ◌≤◌, [], ◌++◌, List, length, take, drop};
ghost use Rattle.base.specs.Bytes.{overwritten};
ghost use Rattle.hmac.specs.Hashing.{Holds};
ghost use Rattle.hmac.specs.Hmac.{hmac};
ghost use Rattle.std.specs.Option.{option_map_or};
ghost use Rattle.base.specs.NumberMap.{NumberMap};
ghost use Rattle.tee_storage.specs.declared.handle.Handle.{Handle};
ghost use Rattle.tee_storage.specs.KeptData.{part_between};
ghost use Rattle.tee_storage.specs.ObjectCalls.{panic_code};
ghost use Rattle.tee_storage.specs.ObjectFiles.{Piece, offset_of as offset_by, pieces_from};
ghost use Rattle.tee_storage.specs.Program.{Now, Program, now_at};
ghost use Rattle.tee_storage.specs.Replies.{unless_failed};
ghost use Rattle.tee_storage.specs.States.{HasTaken, Hashes, IsLeft, IsReady, Taken, TakesNothing, checked_by, left_at, goes_on_reading, onward, reading_on, storing_by};
ghost use Rattle.tee_storage.specs.Tags.{if_brought};
ghost use Rattle.tee_storage.specs.Transfers.{IsDataRead, IsWrite, data_len, put_so_far};

use crate::handles::Handles;
use crate::object_file::offset_of;
use crate::replies::is_whole;
use crate::span::{Span, hash_range};
use crate::step::StorageStep;
use crate::tags::{Tag, brings, tag_request};
use crate::turn::Turn;
use crate::waits::{DataRead, Tagging, Transfer, Waits};
use crate::{reading, writing};
use hmac::HmacSha256;
use rpc_msgs::{Payload, Rpc, RpcReply};
use ta_params::codes::*;

/// Stores the bytes of a piece of the data that the call is to read, where they belong in the range.
fn store_asked<M: Span>(transfer: &Transfer, start: u32, piece: &[u8], span: &mut M)
    requires room { transfer.now.len ≤ length (M.bytes span.old) }
    requires end { transfer.now.object.position + transfer.now.len < 2 ^ 32 }
    ensures bytes { let first = transfer.now.object.position in M.bytes span.new
        ≡ overwritten (M.bytes span.old) (start - first) (part_between first (first + transfer.now.len) start piece.now) }
    ensures rest { M.rest span.new ≡ M.rest span.old }
{
    let first = transfer.object.position;
    let end = first + transfer.len;
    let from = piece.len().min(first.saturating_sub(start) as usize);
    let to = piece.len().min(end.saturating_sub(start) as usize);
    if from < to {
        span.write(start.saturating_sub(first), &piece[from..to]);
    }
}

/// Puts the bytes of a piece from a place on behind a message, where there are any.
fn update_from(hasher: &mut HmacSha256, piece: &[u8], place: u32)
    ensures { (key message : List ℕ) → Holds hasher.old key message → Holds hasher.new key (message ++ drop place piece.now) }
{
    let place = piece.len().min(place as usize);
    hasher.update(&piece[place..]);
}

/// Puts a piece of the old data behind the new data, with the bytes that are to be written in place of those that they go
/// over.
fn put_piece<M: Span>(new: &mut HmacSha256, transfer: &Transfer, start: u32, piece: &[u8], span: &M)
    requires room { transfer.now.len ≤ length (M.bytes span.now) }
    requires end { transfer.now.object.position + transfer.now.len < 2 ^ 32 }
    requires within { start + length piece.now < 2 ^ 32 }
    ensures { (key front content : List ℕ) → length content ≡ start
        → Holds new.old key (front ++ put_so_far transfer.now content (M.bytes span.now))
        → Holds new.new key (front ++ put_so_far transfer.now (content ++ piece.now) (M.bytes span.now)) }
{
    let position = transfer.object.position;
    let end = position + transfer.len;
    if start + piece.len() as u32 <= position {
        new.update(piece);
        return;
    }
    if position < start {
        update_from(new, piece, end.saturating_sub(start));
        return;
    }
    new.update(&piece[..(position - start) as usize]);
    hash_range(new, span, transfer.len);
    update_from(new, piece, end - start);
}

/// The new tag, behind all of the old data: bytes that are to be written at their end come last.
fn new_tag<M: Span>(mut new: HmacSha256, transfer: &Transfer, span: &M) -> Tag
    requires room { transfer.now.len ≤ length (M.bytes span.now) }
    ensures { (key front content : List ℕ) → length content ≡ transfer.now.object.length
        → Holds new key (front ++ put_so_far transfer.now content (M.bytes span.now))
        → result ≡ hmac key (front ++ overwritten content transfer.now.object.position (take transfer.now.len (M.bytes span.now))) }
{
    if transfer.object.position < transfer.object.length {
        return new.finalize();
    }
    hash_range(&mut new, span, transfer.len);
    new.finalize()
}

impl DataRead {
    /// Takes a piece of the data, which stands in the range then where the call is to read it.
    fn take<M: Span>(&mut self, piece: &[u8], span: &mut M)
        requires ready { IsDataRead self.old (M.bytes span.old) }
        requires piece { length piece.now ≡ data_len self.old }
        ensures taken { (taken : Taken) → HasTaken self.old taken (M.bytes span.old)
            → HasTaken self.new (record taken { content = taken.content ++ piece.now }) (M.bytes span.new) }
        ensures stored { (objects : NumberMap Handle) → now_at (M.bytes span.new) objects
            ≡ storing_by self.old.tagging self.old.transfer (now_at (M.bytes span.old) objects) self.old.start piece.now }
        ensures rest { M.rest span.new ≡ M.rest span.old }
        ensures ready { IsDataRead self.new (M.bytes span.new) }
        ensures goes_on { (others : List Piece) (key content : List ℕ) (now : Now) →
            reading_on self.new others key content now ≡ reading_on self.old others key content now }
        ensures moves { (self.new.transfer ≡ self.old.transfer) × (self.new.start ≡ self.old.start + length piece.now) }
    {
        match &mut self.tagging {
            Tagging::Check(kept) => {
                kept.update(piece);
                store_asked(&self.transfer, self.start, piece, span);
            }
            Tagging::Make(new) => put_piece(new, &self.transfer, self.start, piece, span),
            Tagging::Replace { kept, new } => {
                kept.update(piece);
                put_piece(new, &self.transfer, self.start, piece, span);
            }
        }
        self.start += piece.len() as u32;
    }

    /// What follows behind all of the data: their tag is to be read, or what is written is to be.
    fn go_on<M: Span>(self, span: &M) -> Turn
        requires ready { IsDataRead self (M.bytes span.now) }
        requires all { self.start ≡ self.transfer.object.length }
        ensures left { (taken : Taken) (objects : NumberMap Handle) → HasTaken self taken (M.bytes span.now)
            → IsLeft (checked_by self.tagging taken.key self.transfer taken.content (now_at (M.bytes span.now) objects))
            result taken.key (now_at (M.bytes span.now) objects) }
        ensures ready { IsReady result.waits (M.bytes span.now) }
        ensures no_panic { panic_code result.step ≡ None }
    {
        let DataRead {
            transfer,
            tagging,
            ..
        } = self;
        let rpc = tag_request(&transfer.object);
        match tagging {
            Tagging::Check(kept) => {
                let tag = kept.finalize();
                Turn::asking(Waits::ReadChecked(transfer, tag), rpc, Payload::new())
            }
            Tagging::Make(new) => {
                let tag = new_tag(new, &transfer, span);
                writing::next_piece(transfer, tag, span)
            }
            Tagging::Replace { kept, new } => {
                let new = new_tag(new, &transfer, span);
                let waits = Waits::WriteChecked(transfer, kept.finalize(), new);
                Turn::asking(waits, rpc, Payload::new())
            }
        }
    }

    /// The request for the next piece.
    fn request(&self) -> Rpc
        ensures { result ≡ Rpc.FsRead self.now.transfer.object.fd (offset_by self.now.start) (data_len self.now) }
    {
        Rpc::FsRead {
            fd: self.transfer.object.fd,
            offset: offset_of(self.start),
            len: self.piece_len(),
        }
    }

    /// Asks for the next piece of the data. Behind the last one the call goes on.
    pub(crate) fn next<M: Span>(self, span: &M) -> Turn
        requires { IsDataRead self (M.bytes span.now) }
        ensures left { (taken : Taken) (objects : NumberMap Handle) → HasTaken self taken (M.bytes span.now)
            → IsLeft (reading_on self (pieces_from self.start self.transfer.object.length) taken.key taken.content
            (now_at (M.bytes span.now) objects)) result taken.key (now_at (M.bytes span.now) objects) }
        ensures ready { IsReady result.waits (M.bytes span.now) }
        ensures no_panic { panic_code result.step ≡ None }
    {
        if self.start >= self.transfer.object.length {
            return self.go_on(span);
        }
        let rpc = self.request();
        Turn::asking(Waits::DataRead(self), rpc, Payload::new())
    }
}

/// A piece of the data is read in its place, and another one follows: the request for that.
pub(crate) fn read_on<M: Span>(read: &mut DataRead, reply: &RpcReply, span: &mut M) -> Rpc
    requires ready { IsDataRead read.old (M.bytes span.old) }
    requires reads { goes_on_reading (Waits.DataRead read.old) reply.now ≡ true }
    ensures left { (taken : Taken) (objects : NumberMap Handle) → Hashes (Waits.DataRead read.old) taken (M.bytes span.old)
        → IsLeft (onward (Waits.DataRead read.old) taken (now_at (M.bytes span.old) objects) reply.now)
        (record { waits = Waits.DataRead read.new; step = StorageStep.Ask result [] }) taken.key (now_at (M.bytes span.new) objects) }
    ensures rest { M.rest span.new ≡ M.rest span.old }
    ensures ready { IsDataRead read.new (M.bytes span.new) }
{
    read.take(reply.bytes.bytes(), span);
    read.request()
}

/// A piece of the data is read.
pub(crate) fn piece_read<M: Span>(mut read: DataRead, reply: &RpcReply, span: &mut M) -> Turn
    requires { IsDataRead read (M.bytes span.old) }
    ensures left { (taken : Taken) (objects : NumberMap Handle) → HasTaken read taken (M.bytes span.old)
        → IsLeft (onward (Waits.DataRead read) taken (now_at (M.bytes span.old) objects) reply.now)
        result taken.key (now_at (M.bytes span.new) objects) }
    ensures rest { M.rest span.new ≡ M.rest span.old }
    ensures ready { IsReady result.waits (M.bytes span.new) }
    ensures no_panic { panic_code result.step ≡ None }
{
    if reply.ret != TEE_SUCCESS {
        return Turn::failed(reply.ret);
    }
    if !is_whole(reply, read.piece_len()) {
        return Turn::failing(TEE_ERROR_CORRUPT_OBJECT);
    }
    read.take(reply.bytes.bytes(), span);
    read.next(span)
}

/// The result of a call whose tag was to be this one, if the reply doesn't bring it.
fn refused(reply: &RpcReply, tag: &Tag) -> Option<Turn>
    ensures left { (taken : Taken) (now : Now) (onward : Program) → option_map_or (λ turn. left_at turn taken now) result onward
        ≡ unless_failed reply.now.ret now (if_brought reply.now tag.now now onward) }
    ensures ready { (range : List ℕ) → IfSome result (λ turn. IsReady turn.waits range) }
    ensures no_panic { IfSome result (λ turn. panic_code turn.step ≡ None) }
{
    if reply.ret != TEE_SUCCESS {
        return Some(Turn::failed(reply.ret));
    }
    if !brings(reply, tag) {
        return Some(Turn::failing(TEE_ERROR_CORRUPT_OBJECT));
    }
    None
}

/// The tag of an object that is read is there: the read has ended, if it is this one.
pub(crate) fn read_checked(
    transfer: Transfer,
    tag: &Tag,
    reply: &RpcReply,
    handles: &mut Handles,
) -> Turn
    requires { (transfer.handle < 8) × (transfer.object.position + transfer.len < 2 ^ 32) }
    ensures left { (taken : Taken) (range : List ℕ) →
        onward (Waits.ReadChecked transfer tag.now) taken (now_at range handles.old) reply.now
        ≡ left_at result taken (now_at range handles.new) }
    ensures ready { (range : List ℕ) → IsReady result.waits range }
    ensures no_panic { panic_code result.step ≡ None }
{
    match refused(reply, tag) {
        Some(turn) => turn,
        None => reading::all_read(transfer, handles),
    }
}

/// The tag of an object that is written is there: what is written follows, if it is this one.
pub(crate) fn write_checked<M: Span>(
    transfer: Transfer,
    tag: &Tag,
    new: Tag,
    reply: &RpcReply,
    span: &M,
) -> Turn
    requires { IsWrite transfer (M.bytes span.now) }
    ensures left { (taken : Taken) (objects : NumberMap Handle) →
        onward (Waits.WriteChecked transfer tag.now new) taken (now_at (M.bytes span.now) objects) reply.now
        ≡ left_at result taken (now_at (M.bytes span.now) objects) }
    ensures hashes { TakesNothing result.waits }
    ensures ready { IsReady result.waits (M.bytes span.now) }
    ensures no_panic { panic_code result.step ≡ None }
{
    match refused(reply, tag) {
        Some(turn) => turn,
        None => writing::next_piece(transfer, new, span),
    }
}
