//! To write an object.
ghost use Rattle.std.specs.Prelude.{◌≡◌, None, [], ℕ, ◌+◌, ◌<◌, ◌≤◌, List, length};
ghost use Rattle.base.specs.NumberMap.{NumberMap};
ghost use Rattle.tee_storage.specs.declared.handle.Handle.{Handle};
ghost use Rattle.tee_storage.specs.KeptData.{reading_data, storing_none};
ghost use Rattle.tee_storage.specs.ObjectFiles.{Piece, pieces_from};
ghost use Rattle.tee_storage.specs.OpenObjects.{write as write_program, write_checked, writing, writing_tag, written as written_program};
ghost use Rattle.tee_storage.specs.ObjectCalls.{panic_at, panic_code};
ghost use Rattle.tee_storage.specs.Program.{Now, now_at};
ghost use Rattle.tee_storage.specs.States.{HasTaken, IsLeft, Taken, TakesNothing, onward, reading_on, left_at, IsReady};
ghost use Rattle.tee_storage.specs.Transfers.{IsDataRead, IsWrite, IsWritten};

use crate::handle::FileFormat;
use crate::handles::Handles;
use crate::object_file::{HEADER_BYTES, MAX_LENGTH, header_bytes, offset_of};
use crate::span::{Span, bytes_of};
use crate::step::BAD_HANDLE;
use crate::tags::{Key, TAG_BYTES, Tag, is_tagged, tag_hasher};
use crate::turn::Turn;
use crate::waits::{DataRead, Tagging, Transfer, Waits};
use rpc_msgs::{Payload, Rpc, RpcReply};
use ta_params::codes::*;

/// Asks for the old data, which the tags are made of, where there is anything to write.
pub(crate) fn write<M: Span>(
    key: &Key,
    handle: u32,
    len: u32,
    span: &M,
    handles: &mut Handles,
) -> Turn
    requires { length (M.bytes span.now) ≡ len }
    ensures left { IsLeft (write_program key.now handle len (now_at (M.bytes span.now) handles.old))
        result key.now (now_at (M.bytes span.now) handles.new) }
    ensures ready { IsReady result.waits (M.bytes span.now) }
    ensures panics { panic_code result.step ≡ panic_at handles.old handle }
{
    let Some(object) = handles.copy_of(handle) else {
        return Turn::panicking(BAD_HANDLE);
    };
    if u64::from(object.position) + u64::from(len) > u64::from(MAX_LENGTH) {
        return Turn::failing(TEE_ERROR_BAD_PARAMETERS);
    }
    if len == 0 {
        return Turn::ended(0);
    }
    let transfer = Transfer {
        handle,
        object,
        len,
        done: 0,
    };
    old_data(key, transfer).next(span)
}

/// The old data that a write goes over, of which nothing is read yet.
fn old_data(key: &Key, transfer: Transfer) -> DataRead
    requires written { IsWritten transfer }
    requires undone { transfer.done ≡ 0 }
    requires some { 0 < transfer.len }
    ensures left { (others : List Piece) (content : List ℕ) (now : Now) → reading_on result others key.now content now
        ≡ reading_data transfer.object storing_none others content now
        (write_checked key.now transfer.handle transfer.object transfer.len) }
    ensures is { (result.start ≡ 0) × (result.transfer ≡ transfer) }
    ensures taken { (range : List ℕ) → HasTaken result (record { key = key.now; content = [] }) range }
    ensures ready { (range : List ℕ) → transfer.len ≤ length range → IsDataRead result range }
{
    let object = &transfer.object;
    let new = tag_hasher(key, &object.name, transfer.new_length());
    if !is_tagged(object) {
        return DataRead {
            transfer,
            start: 0,
            tagging: Tagging::Make(new),
        };
    }
    let kept = tag_hasher(key, &object.name, object.length);
    DataRead {
        transfer,
        start: 0,
        tagging: Tagging::Replace { kept, new },
    }
}

/// A piece is written.
pub(crate) fn piece_written<M: Span>(
    transfer: Transfer,
    tag: Tag,
    reply: &RpcReply,
    span: &M,
) -> Turn
    requires { IsWrite transfer (M.bytes span.now) }
    ensures left { (taken : Taken) (objects : NumberMap Handle) →
        onward (Waits.PieceWritten transfer tag) taken (now_at (M.bytes span.now) objects) reply.now
        ≡ left_at result taken (now_at (M.bytes span.now) objects) }
    ensures hashes { TakesNothing result.waits }
    ensures ready { IsReady result.waits (M.bytes span.now) }
    ensures no_panic { panic_code result.step ≡ None }
{
    if reply.ret != TEE_SUCCESS {
        return Turn::failed(reply.ret);
    }
    next_piece(transfer.after_piece(), tag, span)
}

/// Asks for the next piece to be written. Behind the last one the tag is.
pub(crate) fn next_piece<M: Span>(transfer: Transfer, tag: Tag, span: &M) -> Turn
    requires written { IsWritten transfer }
    requires room { transfer.len ≤ length (M.bytes span.now) }
    ensures left { (taken : Taken) (objects : NumberMap Handle) →
        writing transfer.handle transfer.object transfer.len tag (pieces_from transfer.done transfer.len)
        (now_at (M.bytes span.now) objects) ≡ left_at result taken (now_at (M.bytes span.now) objects) }
    ensures hashes { TakesNothing result.waits }
    ensures ready { IsReady result.waits (M.bytes span.now) }
    ensures no_panic { panic_code result.step ≡ None }
{
    if transfer.done >= transfer.len {
        return all_written(transfer, &tag);
    }
    let len = transfer.piece_len();
    let payload = bytes_of(span, transfer.done, len);
    let rpc = Rpc::FsWrite {
        fd: transfer.object.fd,
        offset: transfer.offset(),
        len,
    };
    Turn::asking(Waits::PieceWritten(transfer, tag), rpc, payload)
}

/// All the bytes are written: asks for the tag to be.
fn all_written(transfer: Transfer, tag: &Tag) -> Turn
    requires { IsWritten transfer }
    ensures left { (taken : Taken) (now : Now) → writing_tag transfer.handle transfer.object transfer.len tag.now now
        ≡ left_at result taken now }
    ensures ready { (range : List ℕ) → IsReady result.waits range }
    ensures no_panic { panic_code result.step ≡ None }
{
    let rpc = Rpc::FsWrite {
        fd: transfer.object.fd,
        offset: offset_of(transfer.new_length()),
        len: TAG_BYTES,
    };
    Turn::asking(Waits::TagWritten(transfer), rpc, Payload::of(tag))
}

/// The tag is written: asks for the new header to be, where the object has become longer or had no tag.
pub(crate) fn tag_written(transfer: Transfer, reply: &RpcReply, handles: &mut Handles) -> Turn
    requires { IsWritten transfer }
    ensures left { (taken : Taken) (range : List ℕ) →
        onward (Waits.TagWritten transfer) taken (now_at range handles.old) reply.now
        ≡ left_at result taken (now_at range handles.new) }
    ensures ready { (range : List ℕ) → IsReady result.waits range }
    ensures no_panic { panic_code result.step ≡ None }
{
    if reply.ret != TEE_SUCCESS {
        return Turn::failed(reply.ret);
    }
    let len = transfer.new_length();
    if len == transfer.object.length && is_tagged(&transfer.object) {
        return written(transfer, handles);
    }
    let rpc = Rpc::FsWrite {
        fd: transfer.object.fd,
        offset: 0,
        len: HEADER_BYTES,
    };
    let payload = Payload::of(&header_bytes(len));
    Turn::asking(Waits::NewHeaderWritten(transfer), rpc, payload)
}

/// The new header is written.
pub(crate) fn header_written(transfer: Transfer, reply: &RpcReply, handles: &mut Handles) -> Turn
    requires { IsWritten transfer }
    ensures left { (taken : Taken) (range : List ℕ) →
        onward (Waits.NewHeaderWritten transfer) taken (now_at range handles.old) reply.now
        ≡ left_at result taken (now_at range handles.new) }
    ensures ready { (range : List ℕ) → IsReady result.waits range }
    ensures no_panic { panic_code result.step ≡ None }
{
    match reply.ret {
        TEE_SUCCESS => written(transfer, handles),
        ret => Turn::failed(ret),
    }
}

/// The position moves behind the bytes, and the length with it where it has to; the file has a tag.
fn written(transfer: Transfer, handles: &mut Handles) -> Turn
    requires { IsWritten transfer }
    ensures left { (taken : Taken) (range : List ℕ) →
        written_program transfer.handle transfer.object transfer.len (now_at range handles.old)
        ≡ left_at result taken (now_at range handles.new) }
    ensures ready { (range : List ℕ) → IsReady result.waits range }
    ensures no_panic { panic_code result.step ≡ None }
{
    let Transfer {
        handle,
        mut object,
        len,
        ..
    } = transfer;
    object.position += len;
    object.length = object.length.max(object.position);
    object.format = FileFormat::Tagged;
    handles.put(handle, object);
    Turn::ended(0)
}
