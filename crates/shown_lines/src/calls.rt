//! A call that its client is to resume.

ghost use Rattle.std.specs.Prelude.{◌≡◌, ◌++◌, OnOk};
ghost use Rattle.kernel_model.specs.Kernel.{CallPhase, PendingCall};
ghost use Rattle.kernel_state.specs.Calls.{IsCall, IsInPhase};
ghost use Rattle.kernel_state.specs.StandsFor.{IsBeside};
ghost use Rattle.live_play.specs.State.{buffer_text, call_text, marked_text, owner_text, phase_word, request_word, text_if, wants_text};

use crate::digits::{push_address, push_cookie};
use answer_lines::push_numbered;
use frame_pool::Pages;
use kernel_state::Cancellation;
use rpc_cont::{Cont, Phase};
use rpc_msgs::{Rpc, RpcBuffer};
use std::alloc::{AllocError, Global};

/// What a request is for.
fn request_word(rpc: &Rpc) -> &'static [u8]
    ensures { result.now ≡ request_word rpc.now }
{
    match rpc {
        Rpc::Time => b"time",
        Rpc::Sleep(_) => b"sleep",
        Rpc::Wake(_) => b"wake",
        Rpc::Suspend(_) => b"suspend",
        Rpc::FsOpen(_) => b"open",
        Rpc::FsCreate(_) => b"create",
        Rpc::FsClose(_) => b"close",
        Rpc::FsRead { .. } => b"read",
        Rpc::FsWrite { .. } => b"write",
        Rpc::FsRemove(_) => b"remove",
    }
}

/// How far a call has come.
fn phase_word(cont: &Cont<Pages>) -> &'static [u8]
    ensures { (phase : CallPhase) → IsInPhase cont.now phase → result.now ≡ phase_word phase }
{
    match cont.phase {
        Phase::Runs => b"runs",
        Phase::Asks => b"asks",
        Phase::Waits => b"waits",
        Phase::Ends => b"ends",
    }
}

/// Appends what a call's application asks for, where it does.
fn push_wants(text: &mut Vec<u8>, cont: &Cont<Pages>) -> Result<(), AllocError>
    ensures { (phase : CallPhase) → IsInPhase cont.now phase →
        OnOk result (text.new.items ≡ text.old.items ++ wants_text phase) }
{
    match (cont.phase, &cont.request) {
        (Phase::Asks, Some(asked)) => {
            text.extend_from_slice(b" wants ")?;
            text.extend_from_slice(request_word(&asked.rpc))
        }
        _ => Ok(()),
    }
}

/// Appends the buffer that was lent to a call.
fn push_buffer(alloc: Global, text: &mut Vec<u8>, buffer: &RpcBuffer) -> Result<(), AllocError>
    ensures { OnOk result (text.new.items ≡ text.old.items ++ buffer_text buffer.now) }
{
    text.extend_from_slice(b" buffer")?;
    push_address(alloc, text, buffer.addr)?;
    push_cookie(alloc, text, buffer.cookie)
}

/// Appends the buffer that was lent to a call, where one was.
fn push_lent(
    alloc: Global,
    text: &mut Vec<u8>,
    buffer: &Option<RpcBuffer>,
) -> Result<(), AllocError>
    ensures { OnOk result (text.new.items ≡ text.old.items ++ text_if buffer_text buffer.now) }
{
    match buffer {
        Some(buffer) => push_buffer(alloc, text, buffer),
        None => Ok(()),
    }
}

/// Appends whose a call is.
fn push_owner(
    text: &mut Vec<u8>,
    client: u32,
    session: u32,
    instance: u32,
) -> Result<(), AllocError>
    ensures { OnOk result (text.new.items ≡ text.old.items ++ owner_text client session instance) }
{
    push_numbered(text, b" client ", u64::from(client))?;
    push_numbered(text, b" session ", u64::from(session))?;
    push_numbered(text, b" instance ", u64::from(instance))
}

/// Appends that a call is cancelled, where it is.
fn push_marked(text: &mut Vec<u8>, marked: bool) -> Result<(), AllocError>
    ensures { OnOk result (text.new.items ≡ text.old.items ++ marked_text marked) }
{
    if marked {
        return text.extend_from_slice(b" cancelled");
    }
    Ok(())
}

/// Appends what is told of a call of a client.
pub(crate) fn push_call(
    alloc: Global,
    text: &mut Vec<u8>,
    client: u32,
    cont: &Cont<Pages>,
    beside: &Cancellation,
) -> Result<(), AllocError>
    ensures { (call : PendingCall) → IsCall cont.now call → IsBeside beside.now call →
        OnOk result (text.new.items ≡ text.old.items ++ call_text client call) }
{
    text.extend_from_slice(phase_word(cont))?;
    push_owner(text, client, cont.session, cont.instance)?;
    push_wants(text, cont)?;
    push_lent(alloc, text, &cont.buffer)?;
    push_marked(text, beside.marked)
}
