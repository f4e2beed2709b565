//! To read an object.
ghost use Rattle.std.specs.Prelude.{◌≡◌, None, true, ℕ, ◌+◌, ◌^◌, ◌<◌, ◌≤◌, [], List, length};
ghost use Rattle.tee_storage.specs.ObjectFiles.{offset_of, pieces_from};
ghost use Rattle.tee_storage.specs.OpenObjects.{all_read as all_read_program, read as read_program, reading, reading_checked};
ghost use Rattle.base.specs.NumberMap.{NumberMap};
ghost use Rattle.tee_storage.specs.declared.handle.Handle.{Handle};
ghost use Rattle.tee_storage.specs.Tags.{is_tagged};
ghost use Rattle.tee_storage.specs.ObjectCalls.{panic_at, panic_code};
ghost use Rattle.tee_storage.specs.Program.{now_at};
ghost use Rattle.tee_storage.specs.States.{Hashes, IsLeft, Taken, TakesNothing, goes_on_reading, onward, left_at, IsReady};
ghost use Rattle.tee_storage.specs.Transfers.{IsRead, this_len};

use crate::handles::Handles;
use crate::replies::is_whole;
use crate::span::Span;
use crate::step::{BAD_HANDLE, StorageStep};
use crate::tags::{Key, is_tagged as has_tag, tag_hasher};
use crate::turn::Turn;
use crate::waits::{DataRead, Tagging, Transfer, Waits};
use rpc_msgs::{Payload, Rpc, RpcReply};
use ta_params::codes::*;

/// Asks for the first piece, where there is anything to read.
pub(crate) fn read<M: Span>(
    key: &Key,
    handle: u32,
    len: u32,
    span: &M,
    handles: &mut Handles,
) -> Turn
    requires { len ≤ length (M.bytes span.now) }
    ensures left { IsLeft (read_program key.now handle len (now_at (M.bytes span.now) handles.old))
        result key.now (now_at (M.bytes span.now) handles.new) }
    ensures ready { IsReady result.waits (M.bytes span.now) }
    ensures panics { panic_code result.step ≡ panic_at handles.old handle }
{
    let Some(object) = handles.copy_of(handle) else {
        return Turn::panicking(BAD_HANDLE);
    };
    let len = len.min(object.length.saturating_sub(object.position));
    let transfer = Transfer {
        handle,
        object,
        len,
        done: 0,
    };
    if has_tag(&transfer.object) && len > 0 {
        return read_checked(key, transfer, span);
    }
    next_piece(transfer, handles)
}

/// Asks for the first piece of the data, whose tag is checked.
fn read_checked<M: Span>(key: &Key, transfer: Transfer, span: &M) -> Turn
    requires read { IsRead transfer (M.bytes span.now) }
    requires start { transfer.done ≡ 0 }
    requires tagged { is_tagged transfer.object ≡ true }
    ensures left { (objects : NumberMap Handle) →
        IsLeft (reading_checked key.now transfer.handle transfer.object transfer.len (now_at (M.bytes span.now) objects))
        result key.now (now_at (M.bytes span.now) objects) }
    ensures ready { IsReady result.waits (M.bytes span.now) }
    ensures no_panic { panic_code result.step ≡ None }
{
    let kept = tag_hasher(key, &transfer.object.name, transfer.object.length);
    let read = DataRead {
        transfer,
        start: 0,
        tagging: Tagging::Check(kept),
    };
    read.next(span)
}

/// A piece is read, and stands in the range where it has the size that was asked for.
pub(crate) fn piece_read<M: Span>(
    transfer: Transfer,
    reply: &RpcReply,
    span: &mut M,
    handles: &mut Handles,
) -> Turn
    requires { IsRead transfer (M.bytes span.old) }
    ensures left { (taken : Taken) → onward (Waits.PieceRead transfer) taken (now_at (M.bytes span.old) handles.old) reply.now
        ≡ left_at result taken (now_at (M.bytes span.new) handles.new) }
    ensures hashes { TakesNothing result.waits }
    ensures rest { M.rest span.new ≡ M.rest span.old }
    ensures ready { IsReady result.waits (M.bytes span.new) }
    ensures no_panic { panic_code result.step ≡ None }
{
    if reply.ret != TEE_SUCCESS {
        return Turn::failed(reply.ret);
    }
    if !is_whole(reply, transfer.piece_len()) {
        return Turn::failing(TEE_ERROR_CORRUPT_OBJECT);
    }
    span.write(transfer.done, reply.bytes.bytes());
    next_piece(transfer.after_piece(), handles)
}

/// A piece is read in its place, and another one follows: the request for that.
pub(crate) fn read_on<M: Span>(transfer: &mut Transfer, reply: &RpcReply, span: &mut M) -> Rpc
    requires ready { IsRead transfer.old (M.bytes span.old) }
    requires reads { goes_on_reading (Waits.PieceRead transfer.old) reply.now ≡ true }
    ensures left { (taken : Taken) (objects : NumberMap Handle) → Hashes (Waits.PieceRead transfer.old) taken (M.bytes span.old)
        → IsLeft (onward (Waits.PieceRead transfer.old) taken (now_at (M.bytes span.old) objects) reply.now)
        (record { waits = Waits.PieceRead transfer.new; step = StorageStep.Ask result [] }) taken.key (now_at (M.bytes span.new) objects) }
    ensures rest { M.rest span.new ≡ M.rest span.old }
    ensures ready { IsRead transfer.new (M.bytes span.new) }
{
    let len = transfer.piece_len();
    span.write(transfer.done, reply.bytes.bytes());
    transfer.done += len;
    request(transfer)
}

/// The request for the next piece.
fn request(transfer: &Transfer) -> Rpc
    ensures { result ≡ Rpc.FsRead transfer.now.object.fd (offset_of (transfer.now.object.position + transfer.now.done)) (this_len transfer.now) }
{
    Rpc::FsRead {
        fd: transfer.object.fd,
        offset: transfer.offset(),
        len: transfer.piece_len(),
    }
}

/// Asks for the next piece, or ends where there is none: the position moves.
fn next_piece(transfer: Transfer, handles: &mut Handles) -> Turn
    requires handle { transfer.handle < 8 }
    requires end { transfer.object.position + transfer.len < 2 ^ 32 }
    ensures left { (taken : Taken) (range : List ℕ) →
        reading transfer.handle transfer.object transfer.len (pieces_from transfer.done transfer.len) (now_at range handles.old)
        ≡ left_at result taken (now_at range handles.new) }
    ensures hashes { TakesNothing result.waits }
    ensures ready { (range : List ℕ) → transfer.len ≤ length range → IsReady result.waits range }
    ensures no_panic { panic_code result.step ≡ None }
{
    if transfer.done >= transfer.len {
        return all_read(transfer, handles);
    }
    let rpc = request(&transfer);
    Turn::asking(Waits::PieceRead(transfer), rpc, Payload::new())
}

/// All the bytes are read: the position moves behind them.
pub(crate) fn all_read(transfer: Transfer, handles: &mut Handles) -> Turn
    requires handle { transfer.handle < 8 }
    requires end { transfer.object.position + transfer.len < 2 ^ 32 }
    ensures left { (taken : Taken) (range : List ℕ) →
        all_read_program transfer.handle transfer.object transfer.len (now_at range handles.old)
        ≡ left_at result taken (now_at range handles.new) }
    ensures ready { (range : List ℕ) → IsReady result.waits range }
    ensures no_panic { panic_code result.step ≡ None }
{
    let Transfer {
        handle,
        mut object,
        len,
        ..
    } = transfer;
    object.position += len;
    handles.put(handle, object);
    Turn::ended(len)
}
