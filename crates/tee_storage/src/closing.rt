//! To seek, close and delete an object.
ghost use Rattle.std.specs.Prelude.{◌≡◌, None, ℕ, List};
ghost use Rattle.rpc_msgs.specs.declared.rpc.RpcReply.{RpcReply};
ghost use Rattle.tee_storage.specs.OpenObjects.{seek as seek_program, close as close_program, delete as delete_program};
ghost use Rattle.tee_storage.specs.ObjectCalls.{panic_at, panic_code};
ghost use Rattle.tee_storage.specs.Program.{Now, now_at};
ghost use Rattle.tee_storage.specs.States.{Taken, onward, left_at, IsReady};

use crate::handles::Handles;
use crate::object_file::{copy_of, payload_of};
use crate::step::BAD_HANDLE;
use crate::turn::Turn;
use crate::waits::Waits;
use rpc_msgs::{FileName, Payload, Rpc, RpcReply};
use ta_params::codes::*;

/// Moves to a position, which needs no reply.
pub(crate) fn seek(handle: u32, position: u32, handles: &mut Handles) -> Turn
    ensures left { (taken : Taken) (range : List ℕ) → seek_program handle position (now_at range handles.old)
        ≡ left_at result taken (now_at range handles.new) }
    ensures ready { (range : List ℕ) → IsReady result.waits range }
    ensures panics { panic_code result.step ≡ panic_at handles.old handle }
{
    let Some(mut object) = handles.copy_of(handle) else {
        return Turn::panicking(BAD_HANDLE);
    };
    if object.length < position {
        return Turn::failing(TEE_ERROR_BAD_PARAMETERS);
    }
    object.position = position;
    handles.put(handle, object);
    Turn::ended(0)
}

/// Asks for the file to be closed.
pub(crate) fn close(handle: u32, handles: &Handles) -> Turn
    ensures left { (taken : Taken) (range : List ℕ) → close_program handle (now_at range handles.now)
        ≡ left_at result taken (now_at range handles.now) }
    ensures ready { (range : List ℕ) → IsReady result.waits range }
    ensures panics { panic_code result.step ≡ panic_at handles.now handle }
{
    let Some(object) = handles.get(handle) else {
        return Turn::panicking(BAD_HANDLE);
    };
    let rpc = Rpc::FsClose(object.fd);
    Turn::asking(Waits::Closed(handle), rpc, Payload::new())
}

/// The file is closed, or isn't: the handle is given back.
pub(crate) fn closed(handle: u32, reply: &RpcReply, handles: &mut Handles) -> Turn
    ensures left { (taken : Taken) (range : List ℕ) → onward (Waits.Closed handle) taken (now_at range handles.old) reply.now
        ≡ left_at result taken (now_at range handles.new) }
    ensures ready { (range : List ℕ) → IsReady result.waits range }
    ensures no_panic { panic_code result.step ≡ None }
{
    handles.remove(handle);
    removed(reply)
}

/// Asks for the file to be closed, before it is removed.
pub(crate) fn delete(handle: u32, handles: &Handles) -> Turn
    ensures left { (taken : Taken) (range : List ℕ) → delete_program handle (now_at range handles.now)
        ≡ left_at result taken (now_at range handles.now) }
    ensures ready { (range : List ℕ) → IsReady result.waits range }
    ensures panics { panic_code result.step ≡ panic_at handles.now handle }
{
    let Some(object) = handles.get(handle) else {
        return Turn::panicking(BAD_HANDLE);
    };
    let rpc = Rpc::FsClose(object.fd);
    let name = copy_of(&object.name);
    Turn::asking(Waits::ClosedToDelete(handle, name), rpc, Payload::new())
}

/// The file is closed, or isn't: the handle is given back, and the file is to be removed.
pub(crate) fn closed_to_delete(handle: u32, name: FileName, handles: &mut Handles) -> Turn
    ensures left { (taken : Taken) (range : List ℕ) (reply : RpcReply) →
        onward (Waits.ClosedToDelete handle name) taken (now_at range handles.old) reply
        ≡ left_at result taken (now_at range handles.new) }
    ensures ready { (range : List ℕ) → IsReady result.waits range }
    ensures no_panic { panic_code result.step ≡ None }
{
    handles.remove(handle);
    let payload = payload_of(&name);
    Turn::asking(Waits::Removed, Rpc::FsRemove(name), payload)
}

/// The last reply of a close or a delete: its ret decides.
pub(crate) fn removed(reply: &RpcReply) -> Turn
    ensures left { (taken : Taken) (now : Now) → onward Waits.Removed taken now reply.now ≡ left_at result taken now }
    ensures ready { (range : List ℕ) → IsReady result.waits range }
    ensures no_panic { panic_code result.step ≡ None }
{
    if reply.ret != TEE_SUCCESS {
        return Turn::failed(reply.ret);
    }
    Turn::ended(0)
}
