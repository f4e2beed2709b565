//! Where a new call has its argument, and its area.
ghost use Rattle.std.specs.Prelude.{◌≡◌, ◌≤◌, None, IsSome, IfSome, slice_index, true};
ghost use Rattle.std.specs.Option.{ForSome, option_map};
ghost use Rattle.base.specs.NumberMap.{get};
ghost use Rattle.kernel_model.specs.Argument.{argument_at};
ghost use Rattle.kernel_model.specs.Located.{area_of, at_address, at_piece, cookie_of, has_argument, has_bytes, has_head, located_by};
ghost use Rattle.msg_args.specs.Layout.{argument_len};
ghost use Rattle.shm_registry.specs.Registered.{piece_at};
ghost use Rattle.smc_abi.specs.Call.{call_of};
ghost use Rattle.new_calls.specs.Locating.{located_as};

use crate::entering::argument_at;
use msg_args::{HEAD_LEN, MsgHead, PARAM_LEN};
use ns_ram::in_ram;
use rpc_msgs::ARGUMENT_BYTES;
use shm_registry::Registry;
use smc_abi::{Call, Regs, decode_call};

/// A cookie that names an argument, and how many bytes from there on stand in the same page and in the buffer.
#[derive(Clone, Copy)]
pub(crate) struct Named {
    pub cookie: u64,
    pub room: u32,
}

/// Where a call has its argument, whether it has an area behind that, and by what it is named, if a cookie does.
#[derive(Clone, Copy)]
pub(crate) struct Located {
    pub addr: u64,
    pub has_area: bool,
    pub named: Option<Named>,
}

impl Located {
    /// Of a new call with these registers, by its kind. A cookie has to be registered, and the offset below its buffer's
    /// size.
    pub fn of(registry: &Registry, regs: &Regs) -> Option<Located>
        ensures at { option_map located_as result
            ≡ located_by registry.now.buffers regs.now.a (call_of (slice_index regs.now.a 0)) }
        ensures kept { IfSome result (λ at. ForSome at.named (λ named. IsSome (get registry.now.buffers named.cookie))) }
    {
        let arg = argument_at(regs);
        match decode_call(regs) {
            Call::WithArg => Some(Located::at_address(arg, false)),
            Call::WithRpcArg => Some(Located::at_address(arg, true)),
            Call::WithRegdArg => Located::in_registered(registry, arg, regs.a[3]),
            Call::Fast(_) | Call::Resume | Call::Unknown => None,
        }
    }

    fn at_address(addr: u64, has_area: bool) -> Located
        ensures at { located_as result ≡ at_address has_area addr }
        ensures named { result.named ≡ None }
    {
        Located {
            addr,
            has_area,
            named: None,
        }
    }

    /// At an offset in the buffer of a cookie.
    fn in_registered(registry: &Registry, cookie: u64, offset: u32) -> Option<Located>
        ensures at { option_map located_as result
            ≡ option_map (at_piece cookie) (piece_at registry.now.buffers cookie offset) }
        ensures named { IfSome result (λ at. ForSome at.named (λ named. named.cookie ≡ cookie)) }
    {
        let piece = registry.piece_at(cookie, u64::from(offset))?;
        Some(Located {
            addr: piece.addr,
            has_area: true,
            named: Some(Named {
                cookie,
                room: piece.len,
            }),
        })
    }

    /// So many bytes from there on lie in RAM, and in the page and the buffer in which a cookie names them.
    fn has_bytes(&self, len: u64) -> bool
        ensures { result ≡ has_bytes (located_as self.now) len }
    {
        in_ram(self.addr, len)
            && match self.named {
                Some(named) => len <= u64::from(named.room),
                None => true,
            }
    }

    /// A head is there: at a multiple of 8.
    pub fn has_head(&self) -> bool
        ensures { result ≡ has_head (located_as self.now) }
    {
        self.addr % 8 == 0 && self.has_bytes(HEAD_LEN)
    }

    /// The head counts at most six parameters, and they are there behind it, and behind them the area.
    pub fn has_argument(&self, head: &MsgHead) -> bool
        ensures { result ≡ has_argument (located_as self.now) head.now }
    {
        if head.count > 6 {
            return false;
        }
        let area = if self.has_area { ARGUMENT_BYTES } else { 0 };
        self.has_bytes(argument_len(head) + area)
    }

    /// The address of the area.
    pub fn area(&self, head: &MsgHead) -> Option<u64>
        requires { has_argument (located_as self.now) head.now ≡ true }
        ensures { result ≡ area_of (located_as self.now) head.now }
    {
        self.has_area.then_some(self.addr + argument_len(head))
    }

    /// The cookie that names it.
    pub fn cookie(&self) -> Option<u64>
        ensures { result ≡ cookie_of (located_as self.now) }
    {
        let named = self.named?;
        Some(named.cookie)
    }
}

/// How many bytes an argument with this head has.
fn argument_len(head: &MsgHead) -> u64
    requires { head.now.count ≤ 6 }
    ensures { result ≡ argument_len head.now.count }
{
    HEAD_LEN + PARAM_LEN * u64::from(head.count)
}
