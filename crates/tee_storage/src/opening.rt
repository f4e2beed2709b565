//! To create and open an object.
ghost use Rattle.std.specs.Prelude.{◌≡◌, None, ℕ, ◌<◌, List, length, IfOk};
ghost use Rattle.tee_storage.specs.Opening.{asking, first_bytes as first_bytes_of, header_in as header_found, on_file, opened as opened_program};
ghost use Rattle.tee_storage.specs.ObjectCalls.{panic_code};
ghost use Rattle.tee_storage.specs.Program.{Now, now_at};
ghost use Rattle.tee_storage.specs.States.{Taken, new_object as new_object_of, onward, left_at, IsReady};

use crate::handle::{FileFormat, Handle};
use crate::handles::Handles;
use crate::object_file::{
    HEADER_BYTES, Header, MAX_ID, copy_of, file_name, header_bytes, header_of, payload_of,
};
use crate::replies::is_whole;
use crate::span::{Span, bytes_of};
use crate::tags::{Key, TAG_BYTES, first_tag};
use crate::turn::Turn;
use crate::waits::{NewObject, Waits};
use rpc_msgs::{FileName, Payload, Rpc, RpcReply};
use ta_params::codes::*;
use uuid::Uuid;

/// How many bytes the file of an object without data has.
const FIRST_BYTES: usize = (HEADER_BYTES + TAG_BYTES) as usize;

/// What the header of such a file says.
const NO_DATA: Header = Header {
    format: FileFormat::Tagged,
    length: 0,
};

/// The tests at a create or an open: the length of the id, and whether a handle is free.
fn new_object<M: Span>(uuid: Uuid, len: u32, span: &M, handles: &Handles) -> Result<NewObject, u32>
    requires { length (M.bytes span.now) ≡ len }
    ensures object { result ≡ new_object_of uuid len (now_at (M.bytes span.now) handles.now) }
    ensures in_range { IfOk result (λ new. new.number < 8) }
{
    if len == 0 || len > MAX_ID {
        return Err(TEE_ERROR_BAD_PARAMETERS);
    }
    let Some(number) = handles.lowest_free() else {
        return Err(TEE_ERROR_BAD_STATE);
    };
    let id = bytes_of(span, 0, len);
    Ok(NewObject {
        name: file_name(uuid, id.bytes()),
        number,
    })
}

/// What a call asks of an object's file.
#[derive(Clone, Copy)]
pub enum FileCall {
    /// To be created.
    Create,
    /// To be opened.
    Open,
}

impl FileCall {
    /// Asks for the file of the object that the span names.
    pub(crate) fn begin<M: Span>(
        self,
        uuid: Uuid,
        key: &Key,
        len: u32,
        span: &M,
        handles: &Handles,
    ) -> Turn
        requires { length (M.bytes span.now) ≡ len }
        ensures left { (taken : Taken) → on_file self uuid key.now len (now_at (M.bytes span.now) handles.now)
            ≡ left_at result taken (now_at (M.bytes span.now) handles.now) }
        ensures ready { (range : List ℕ) → IsReady result.waits range }
        ensures no_panic { panic_code result.step ≡ None }
    {
        match new_object(uuid, len, span, handles) {
            Ok(new) => self.ask(new, key),
            Err(code) => Turn::failing(code),
        }
    }

    /// The request, once the object has a name and a number.
    fn ask(self, new: NewObject, key: &Key) -> Turn
        requires { new.number < 8 }
        ensures left { (taken : Taken) (now : Now) → asking self key.now new.name now new.number ≡ left_at result taken now }
        ensures ready { (range : List ℕ) → IsReady result.waits range }
        ensures no_panic { panic_code result.step ≡ None }
    {
        let payload = payload_of(&new.name);
        let name = copy_of(&new.name);
        match self {
            FileCall::Create => Turn::asking(
                Waits::Created(new, *key),
                Rpc::FsCreate(name),
                payload,
            ),
            FileCall::Open => Turn::asking(Waits::Opened(new), Rpc::FsOpen(name), payload),
        }
    }
}

/// What a file without data begins with, and ends with.
fn first_bytes(key: &Key, name: &FileName) -> Payload
    ensures { result ≡ first_bytes_of key.now name.now }
{
    let mut bytes = [0; FIRST_BYTES];
    bytes[..HEADER_BYTES as usize].copy_from_slice(&header_bytes(0));
    bytes[HEADER_BYTES as usize..].copy_from_slice(&first_tag(key, name));
    Payload::of(&bytes)
}

/// The file is created: its header and tag are to be written.
pub(crate) fn created(new: NewObject, key: &Key, reply: &RpcReply) -> Turn
    requires { new.number < 8 }
    ensures left { (taken : Taken) (now : Now) → onward (Waits.Created new key.now) taken now reply.now ≡ left_at result taken now }
    ensures ready { (range : List ℕ) → IsReady result.waits range }
    ensures no_panic { panic_code result.step ≡ None }
{
    if reply.ret != TEE_SUCCESS {
        return Turn::failed(reply.ret);
    }
    let fd = reply.v;
    let rpc = Rpc::FsWrite {
        fd,
        offset: 0,
        len: FIRST_BYTES as u32,
    };
    let payload = first_bytes(key, &new.name);
    Turn::asking(Waits::HeaderWritten(new, fd), rpc, payload)
}

/// The header and the tag are written: the object is open.
pub(crate) fn header_written(
    new: NewObject,
    fd: u64,
    reply: &RpcReply,
    handles: &mut Handles,
) -> Turn
    requires { new.number < 8 }
    ensures left { (taken : Taken) (range : List ℕ) → onward (Waits.HeaderWritten new fd) taken (now_at range handles.old) reply.now
        ≡ left_at result taken (now_at range handles.new) }
    ensures ready { (range : List ℕ) → IsReady result.waits range }
    ensures no_panic { panic_code result.step ≡ None }
{
    match reply.ret {
        TEE_SUCCESS => opened(new, fd, NO_DATA, handles),
        ret => Turn::failed(ret),
    }
}

/// The file is open: its header is to be read.
pub(crate) fn file_opened(new: NewObject, reply: &RpcReply) -> Turn
    requires { new.number < 8 }
    ensures left { (taken : Taken) (now : Now) → onward (Waits.Opened new) taken now reply.now ≡ left_at result taken now }
    ensures ready { (range : List ℕ) → IsReady result.waits range }
    ensures no_panic { panic_code result.step ≡ None }
{
    if reply.ret != TEE_SUCCESS {
        return Turn::failed(reply.ret);
    }
    let fd = reply.v;
    let rpc = Rpc::FsRead {
        fd,
        offset: 0,
        len: HEADER_BYTES,
    };
    Turn::asking(Waits::HeaderRead(new, fd), rpc, Payload::new())
}

/// The header is read: the object is open, if it is one.
pub(crate) fn header_read(new: NewObject, fd: u64, reply: &RpcReply, handles: &mut Handles) -> Turn
    requires { new.number < 8 }
    ensures left { (taken : Taken) (range : List ℕ) → onward (Waits.HeaderRead new fd) taken (now_at range handles.old) reply.now
        ≡ left_at result taken (now_at range handles.new) }
    ensures ready { (range : List ℕ) → IsReady result.waits range }
    ensures no_panic { panic_code result.step ≡ None }
{
    if reply.ret != TEE_SUCCESS {
        return Turn::failed(reply.ret);
    }
    match header_in(reply) {
        Some(header) => opened(new, fd, header, handles),
        None => Turn::failing(TEE_ERROR_CORRUPT_OBJECT),
    }
}

/// What the bytes of a reply say as a header, if they are one.
fn header_in(reply: &RpcReply) -> Option<Header>
    ensures { result ≡ header_found reply.now }
{
    if !is_whole(reply, HEADER_BYTES) {
        return None;
    }
    header_of(reply.bytes.bytes())
}

/// Puts the object at its number.
fn opened(new: NewObject, fd: u64, header: Header, handles: &mut Handles) -> Turn
    requires { new.number < 8 }
    ensures left { (taken : Taken) (range : List ℕ) → opened_program new.name new.number fd header (now_at range handles.old)
        ≡ left_at result taken (now_at range handles.new) }
    ensures ready { (range : List ℕ) → IsReady result.waits range }
    ensures no_panic { panic_code result.step ≡ None }
{
    let NewObject { name, number } = new;
    let object = Handle {
        name,
        fd,
        length: header.length,
        position: 0,
        format: header.format,
    };
    handles.put(number, object);
    Turn::ended(number)
}
