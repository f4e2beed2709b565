//! A new call, OPTEE_SMC_CALL_WITH_ARG, _WITH_RPC_ARG or _WITH_REGD_ARG: what is decided of it.
//!
//! Deciding is lent the tables to read, and does the tests and the reads. A test of every call that fails answers it, one
//! of its command settles it in its slot, and want of memory ends it with nothing decided. What it comes to is a `Plan`,
//! which says what the call's slot is taken for, and has all memory that this needs but the call's own. No table is
//! changed here.
//!
//! It reads the lane that it is lent, and touches no port and no thread.
//!
//! # What is proved
//!
//! - A new call is decided as the kernel's definition decides it: over the lane the tests of every call and those of
//!   its command come to the answer, or to what the slot is taken for, with just the reads that it lists. Of want of
//!   memory nothing is said. The slot is the free one that it was offered. `Located` says where the argument is, by an
//!   address or in registered memory, and the area behind it; nothing of the area is read.
//! - What a plan may rely on where it is applied is proved with it (below).
//! - It asks that each instance is of an application of the boot, and that the pool has the free pages, as in the
//!   kernels of legal histories.
//!
//! # Definitions
//!
//! - `open_fault`, `register_fault` (`Faults`): the code of the first test that fails, of those that read nothing more:
//!   a register of no bytes fails with TEE_ERROR_BAD_PARAMETERS
//!
//! **Beside the kernel's definition.** Each function of the code has the name of the one in `kernel_model`'s
//! `specs/NewCall.antt` or `specs/Argument.antt` that its contract cites, and a test stands there as one early return,
//! in the order of the definition.
//!
//! | Test or case | Kernel's definition | Code |
//! |---|---|---|
//! | a free slot, or ETHREAD_LIMIT | `new_call_with`: `known free ethread_limit` | `new_call`: `let Some(slot) = found.free else` |
//! | where the argument is, or EBADADDR | `new_call_in`: `known (located tables regs) ebadaddr` | `come_in`: `let Some(at) = Located::of(registry, regs) else` |
//! | a head is there, or EBADADDR | `need (has_head at) ebadaddr` | `if !at.has_head()` |
//! | the head | `read (take_bytes at.addr 32)`, `head_at` | `reads.take_bytes(..)`, `head_in` |
//! | the count, the parameters and the area, or EBADADDR | `need (has_argument at ..) ebadaddr` | `if !at.has_argument(&head)` |
//! | the command, or EBADCMD | `known (command_of ..) ebadcmd` | `let Some(command) = command_of(head.cmd) else` |
//! | the command's tests | `commands`, `taken_by` | `CallAtEntry::command`, `CallAtEntry::plan` |
//! | the parameters' attributes | `parameters` | `parameters`, with `params_in` |
//! | open: the shape | `known (opening params)` | `opening` of `wanted.rt` |
//! | open: the application | `known (app_of c.boot wanted.uuid)` | `self.setup.application(&wanted.uuid)` |
//! | open: a dead instance | `shares_one c app (.. dead)` | `shares_dead` |
//! | open: a session that has the instance alone | `is_taken` | `is_taken` |
//! | open: room for a session | `has_session_room` | `self.tables.sessions.has_room()` |
//! | open: pages | `has_pages` | `has_pages` |
//! | open: copying | `copied_params c wanted.params 2` | `copied_params(alloc, lane, wanted.params, 2, reads)` |
//! | open: the case | `opens_or_waits` | `Plan::Opens` |
//! | invoke: the shape | `known (invocation params)` | `invocation` |
//! | invoke, close, cancel: the session | `known (named_session c)` | `named_session` |
//! | invoke: a dead instance | `need (not named.1.dead)` | `if instance.dead` |
//! | invoke: copying | `copied_params c invoked 0` | `copied_params(alloc, lane, invoked, 0, reads)` |
//! | invoke: the case | `invokes` | `Plan::Invokes` |
//! | close: the case | `closes` | `Plan::Closes` |
//! | cancel: the case | `cancels` | `Plan::Cancels` |
//! | register: the shape | `known (registering params)` | `registering` |
//! | register: a new cookie | `need (is_none (get ..))` | `if self.tables.registry.contains(param.s)` |
//! | register: some bytes | `need (nat_lt 0 param.q)` | `if param.q == 0` |
//! | register: not too many pages | `need (nat_le (pages_touched param) 1024)` | `if pages_touched(param) > MAX_PAGES` |
//! | register: room | `need (nat_lt (length ..) 64)` | `if self.tables.registry.len() >= REGISTRY_LIMIT` |
//! | register: pages of RAM | `faultless (listed_pages param)` | `listed_pages` |
//! | register: the case | `keeps_buffer` | `Plan::KeepsBuffer` |
//! | unregister: the shape | `known (unregistering params)` | `unregistering` |
//! | unregister: the cookie is kept | `need (is_some (get ..))` | `if !self.tables.registry.contains(param.s)` |
//! | unregister: no call pins it, nor does this one as its argument's | `need (is_none (lowest_slot ..))`, in tables `with_argument_pinned` | `if self.is_pinned(param.s)` |
//! | unregister: the case | `drops_buffer` | `Plan::DropsBuffer` |
//!
//! **What a plan brings.** Applying it is `kernel_entry`'s, takes no memory and can't fail. So a plan that begins has
//! the application that runs, also where the call will wait for its instance, and its parameters copied; the memory of
//! the call itself is taken by whoever decides the entry. And `CanApply` keeps what the tests have found of the tables:
//! the session is the named one, its instance is of the application, the cookies are registered, there is room for a
//! session or a buffer, and there are pages for an instance. `CanPin` keeps that the cookie that names the argument is
//! registered.
#![tactic(auto)]

mod argument;
mod call;
mod cancel;
mod close;
mod command;
mod decided;
mod entered;
mod entering;
mod halt;
mod invoke;
mod located;
mod open;
mod parameters;
mod plan;
mod refused;
mod register;
mod session;
mod unregister;
mod wanted;

pub use call::CallAtEntry;
pub use decided::{Decided, Found};
pub use entered::Entered;
pub use entering::{lowest_free, new_call};
pub use halt::{Halt, Settled};
pub use plan::Plan;
