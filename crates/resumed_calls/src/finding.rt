//! The call that a resume is for.
ghost use Rattle.std.specs.Prelude.{◌≡◌, List, IsOk, IsSome, Some};
ghost use Rattle.std.specs.Option.{option_copied};
ghost use Rattle.kernel_model.specs.Argument.{client_in, thread_in};
ghost use Rattle.kernel_model.specs.Kernel.{ThreadSlot};
ghost use Rattle.kernel_model.specs.Resume.{call_resumed_by};
ghost use Rattle.kernel_state.specs.StandsFor.{AreSlots};
ghost use Rattle.kernel_state.specs.declared.cancellation.Cancellation.{Cancellation as AnyCancellation};
ghost use Rattle.resumed_calls.specs.Deciding.{IsHandedOut};
ghost use Rattle.resumed_calls.specs.Finding.{BoxedCont, IsCallOf};
ghost use Rattle.thread_slots.specs.Slots.{resumed};

use frame_pool::Pages;
use rpc_cont::Cont;
use smc_abi::Regs;
use thread_slots::Slots;

/// The call that is suspended in the slot of a3 for the client of a7, if there is one.
#[tactic(auto, using(crate::proofs::Slots::resumed_told, crate::proofs::Slots::refused_told, crate::proofs::Slots::handed_out, crate::proofs::Slots::not_handed_out, crate::proofs::Slots::is_suspended))]
pub(crate) fn call_resumed_by<'a>(
    slots: &'a Slots<Box<Cont<Pages>>>,
    regs: &Regs,
) -> Option<&'a Cont<Pages>>
    ensures call { (beside : List AnyCancellation) (held : List ThreadSlot) → AreSlots slots.now beside held
        → IsCallOf (option_copied result) (call_resumed_by held regs.now.a) }
    ensures there { (cont : BoxedCont) → IsHandedOut slots.now regs.now.a cont → option_copied result ≡ Some cont.value }
    ensures suspended { IsSome result → IsOk (resumed slots.now (thread_in regs.now.a) (client_in regs.now.a)) }
{
    match slots.suspended_call(regs.a[3], regs.a[7]) {
        Ok(cont) => Some(cont),
        Err(_) => None,
    }
}

/// The slot of a3, in which a call is suspended for the client of a7.
pub(crate) fn slot_named(slots: &Slots<Box<Cont<Pages>>>, regs: &Regs) -> u8
    requires { IsOk (resumed slots.now (thread_in regs.now.a) (client_in regs.now.a)) }
    ensures { result ≡ thread_in regs.now.a }
{
    let _count = slots.count();
    regs.a[3] as u8
}
