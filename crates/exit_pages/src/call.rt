//! The pages of a call that goes out.
ghost use Rattle.std.specs.Prelude.{◌≡◌, ℕ, ◌≤◌, IfSome, Some, length};
ghost use Rattle.exit_pages.specs.Covering.{CoversBytes, CoversCall};
ghost use Rattle.page_set.specs.Pages.{IsWithin};
ghost use Rattle.rpc_msgs.specs.declared.rpc_buffer.RpcBuffer.{RpcBuffer as AnyBuffer};

use crate::places::mark_places;
use frame_pool::Pages;
use msg_args::HEAD_LEN;
use page_set::PageSet;
use rpc_cont::{Asked, Cont};
use rpc_msgs::{ARGUMENT_BYTES, MESSAGE_BYTES, RpcBuffer};

/// Nothing is done: what a call asks for has few bytes beside it.
fn payload_is_short(request: &Option<Asked>)
    ensures { IfSome request.now (λ asked. length asked.payload ≤ 3584) }
{
    if let Some(asked) = request {
        let _bytes = asked.payload.bytes();
    }
}

/// Adds the pages of an area, which is for the argument of a request.
fn mark_area(pages: &mut PageSet, area: Option<u64>)
    ensures covers { (at : ℕ) → area ≡ Some at → CoversBytes pages.new at 160 }
    ensures keeps { IsWithin pages.old pages.new }
{
    if let Some(at) = area {
        pages.mark(at, ARGUMENT_BYTES);
    }
}

/// Adds the pages of a buffer, which is for a request and its payload.
fn mark_buffer(pages: &mut PageSet, buffer: Option<RpcBuffer>)
    ensures covers { (there : AnyBuffer) → buffer ≡ Some there → CoversBytes pages.new there.addr 4096 }
    ensures keeps { IsWithin pages.old pages.new }
{
    if let Some(there) = buffer {
        pages.mark(there.addr, MESSAGE_BYTES);
    }
}

/// Adds the pages of all that a call has in RAM.
pub(crate) fn mark_call(pages: &mut PageSet, cont: &Cont<Pages>)
    ensures { CoversCall pages.new cont.now }
{
    payload_is_short(&cont.request);
    pages.mark(cont.arg, HEAD_LEN);
    mark_places(pages, cont.arg, cont.places.as_slice());
    mark_area(pages, cont.area);
    mark_buffer(pages, cont.buffer);
}
