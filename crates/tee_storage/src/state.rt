ghost use Rattle.std.specs.Prelude.{◌≡◌, None, true, ℕ, [], ◌∷◌, ◌++◌, List, length, Some};
ghost use Rattle.base.specs.NumberMap.{NumberMap};
ghost use Rattle.rpc_msgs.specs.Answer.{RpcAnswer, Replied, NoBuffer};
ghost use Rattle.rpc_msgs.specs.declared.rpc.Rpc.{Rpc as AnyRpc};
ghost use Rattle.ta_params.specs.declared.object_call.ObjectCall.{ObjectCall};
ghost use Rattle.tee_storage.specs.declared.handle.Handle.{Handle};
ghost use Rattle.tee_storage.specs.ObjectCalls.{Serving, panic_code, panic_of, program_of, range_len, serving};
ghost use Rattle.tee_storage.specs.Program.{now_at};
ghost use Rattle.tee_storage.specs.States.{Hashes, IsLeft, Taken, CanGoOn, IsReady, StandsFor, left_at, onward, reads_on};

use crate::handles::Handles;
use crate::opening::FileCall;
use crate::span::Span;
use crate::step::StorageStep;
use crate::tags::Key;
use crate::turn::Turn;
use crate::waits::Waits;
use crate::{closing, data_reading, opening, reading, writing};
use rpc_msgs::{Rpc, RpcReply};
use std::mem;
use ta_params::ObjectCall;
use ta_params::codes::*;
use uuid::Uuid;

/// A call on an object that has asked the normal world for something, as plain data: what it goes on with once a
/// reply is there. This project's own.
#[derive(Drop)]
pub struct ObjectState {
    pub(crate) waits: Waits,
}

impl ObjectState {
    /// Begins a call of the application of this UUID. The span is the memory range that the call names: the id
    /// of a create or an open, the bytes of a read or a write, and else empty. The key is that of the tags of its files. Takes
    /// no memory.
    ///
    /// Panics with BAD_HANDLE exactly where the call's handle isn't open.
    pub fn start<M: Span>(
        call: ObjectCall,
        uuid: Uuid,
        span: &M,
        handles: &mut Handles,
        key: &Key,
    ) -> (ObjectState, StorageStep)
        requires { length (M.bytes span.now) ≡ range_len call }
        ensures panics { panic_code result.1 ≡ panic_of call handles.old }
        ensures ready { CanGoOn result.0 (M.bytes span.now) }
        ensures stands { StandsFor result.0 call uuid key.now (M.bytes span.now) handles.old []
            (record { step = result.1; range = M.bytes span.now; objects = handles.new }) }
    {
        let turn = begun(call, uuid, span, handles, key);
        (ObjectState { waits: turn.waits }, turn.step)
    }

    /// Goes on with the reply to what the last step asked for, over the span and the handles as that step left
    /// them. The bytes of a read are in the span as soon as their piece is. Takes no memory.
    pub fn answer<M: Span>(
        &mut self,
        reply: &RpcReply,
        span: &mut M,
        handles: &mut Handles,
    ) -> StorageStep
        requires { CanGoOn self.old (M.bytes span.old) }
        ensures no_panic { panic_code result ≡ None }
        ensures rest { M.rest span.new ≡ M.rest span.old }
        ensures ready { CanGoOn self.new (M.bytes span.new) }
        ensures stands { (call : ObjectCall) (uuid key range : List ℕ) (objects : NumberMap Handle) (answers : List RpcAnswer)
            (rpc : AnyRpc) (payload : List ℕ)
            → StandsFor self.old call uuid key range objects answers
            (record { step = StorageStep.Ask rpc payload; range = M.bytes span.old; objects = handles.old })
            → StandsFor self.new call uuid key range objects (answers ++ Replied reply.now ∷ [])
            (record { step = result; range = M.bytes span.new; objects = handles.new }) }
    {
        let waits = mem::replace(&mut self.waits, Waits::Nothing);
        let turn = answered(waits, reply, span, handles);
        self.waits = turn.waits;
        turn.step
    }

    /// Whether the reply brings a piece of an object that is read, and another piece follows.
    pub fn reads_on(&self, reply: &RpcReply) -> bool
        ensures { result ≡ reads_on self.now reply.now }
    {
        match &self.waits {
            Waits::PieceRead(transfer) => transfer.reads_on(reply),
            Waits::DataRead(read) => read.reads_on(reply),
            _ => false,
        }
    }

    /// Goes on in its place with a reply that brings a piece of an object, behind which another one follows: the request for
    /// that, which goes without bytes. It is what `answer` comes to. Takes no memory.
    pub fn read_on<M: Span>(&mut self, reply: &RpcReply, span: &mut M) -> Rpc
        requires can { CanGoOn self.old (M.bytes span.old) }
        requires reads { reads_on self.old reply.now ≡ true }
        ensures rest { M.rest span.new ≡ M.rest span.old }
        ensures ready { CanGoOn self.new (M.bytes span.new) }
        ensures stands { (call : ObjectCall) (uuid key range : List ℕ) (objects then : NumberMap Handle) (answers : List RpcAnswer)
            (rpc : AnyRpc) (payload : List ℕ)
            → StandsFor self.old call uuid key range objects answers
            (record { step = StorageStep.Ask rpc payload; range = M.bytes span.old; objects = then })
            → StandsFor self.new call uuid key range objects (answers ++ Replied reply.now ∷ [])
            (record { step = StorageStep.Ask result []; range = M.bytes span.new; objects = then }) }
    {
        match &mut self.waits {
            Waits::PieceRead(transfer) => reading::read_on(transfer, reply, span),
            Waits::DataRead(read) => data_reading::read_on(read, reply, span),
            _ => unreachable!(),
        }
    }

    /// Ends the call, since there is no buffer for what it asks: its result. Takes no memory.
    pub fn no_buffer(self) -> u32
        ensures code { result ≡ 0xffff000c }
        ensures serves { (call : ObjectCall) (uuid key range now : List ℕ) (objects then : NumberMap Handle)
            (answers : List RpcAnswer) (rpc : AnyRpc) (payload : List ℕ)
            → StandsFor self call uuid key range objects answers
            (record { step = StorageStep.Ask rpc payload; range = now; objects = then })
            → serving call uuid key range objects (answers ++ NoBuffer ∷ [])
            ≡ Some (record { step = StorageStep.Done result 0; range = now; objects = then }) }
    {
        TEE_ERROR_OUT_OF_MEMORY
    }
}

/// What a call begins with.
fn begun<M: Span>(call: ObjectCall, uuid: Uuid, span: &M, handles: &mut Handles, key: &Key) -> Turn
    requires { length (M.bytes span.now) ≡ range_len call }
    ensures left { IsLeft (program_of call uuid key.now (now_at (M.bytes span.now) handles.old))
        result key.now (now_at (M.bytes span.now) handles.new) }
    ensures ready { IsReady result.waits (M.bytes span.now) }
    ensures panics { panic_code result.step ≡ panic_of call handles.old }
{
    match call {
        ObjectCall::Create { len, .. } => FileCall::Create.begin(uuid, key, len, span, handles),
        ObjectCall::Opened { len, .. } => FileCall::Open.begin(uuid, key, len, span, handles),
        ObjectCall::Read { handle, len, .. } => reading::read(key, handle, len, span, handles),
        ObjectCall::Write { handle, len, .. } => writing::write(key, handle, len, span, handles),
        ObjectCall::Seek { handle, position } => closing::seek(handle, position, handles),
        ObjectCall::Close { handle } => closing::close(handle, handles),
        ObjectCall::Delete { handle } => closing::delete(handle, handles),
    }
}

/// What a call goes on with after a reply.
fn answered<M: Span>(waits: Waits, reply: &RpcReply, span: &mut M, handles: &mut Handles) -> Turn
    requires { IsReady waits (M.bytes span.old) }
    ensures left { (taken : Taken) → Hashes waits taken (M.bytes span.old)
        → IsLeft (onward waits taken (now_at (M.bytes span.old) handles.old) reply.now)
        result taken.key (now_at (M.bytes span.new) handles.new) }
    ensures rest { M.rest span.new ≡ M.rest span.old }
    ensures ready { IsReady result.waits (M.bytes span.new) }
    ensures no_panic { panic_code result.step ≡ None }
{
    match waits {
        Waits::Nothing => Turn::ended(0),
        Waits::Created(new, key) => opening::created(new, &key, reply),
        Waits::HeaderWritten(new, fd) => opening::header_written(new, fd, reply, handles),
        Waits::Opened(new) => opening::file_opened(new, reply),
        Waits::HeaderRead(new, fd) => opening::header_read(new, fd, reply, handles),
        Waits::PieceRead(transfer) => reading::piece_read(transfer, reply, span, handles),
        Waits::DataRead(read) => data_reading::piece_read(read, reply, span),
        Waits::ReadChecked(transfer, tag) => {
            data_reading::read_checked(transfer, &tag, reply, handles)
        }
        Waits::WriteChecked(transfer, tag, new) => {
            data_reading::write_checked(transfer, &tag, new, reply, span)
        }
        Waits::PieceWritten(transfer, tag) => writing::piece_written(transfer, tag, reply, span),
        Waits::TagWritten(transfer) => writing::tag_written(transfer, reply, handles),
        Waits::NewHeaderWritten(transfer) => writing::header_written(transfer, reply, handles),
        Waits::Closed(handle) => closing::closed(handle, reply, handles),
        Waits::ClosedToDelete(handle, name) => closing::closed_to_delete(handle, name, handles),
        Waits::Removed => closing::removed(reply),
    }
}
