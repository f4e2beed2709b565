//! What becomes of a call that is resumed.
ghost use Rattle.std.specs.Prelude.{◌≡◌};
ghost use Rattle.kernel_model.specs.Kernel.{PendingCall};
ghost use Rattle.kernel_model.specs.Resume.{is_without_buffer, onward_of, resumed_call};
ghost use Rattle.kernel_state.specs.Calls.{IsCall};
ghost use Rattle.kernel_state.specs.Setup.{boot_of, booted_of_setup};
ghost use Rattle.kernel_state.specs.Tables.{HasFreePages, tables_of};
ghost use Rattle.ta_isa.specs.Boots.{IsBoot};
ghost use Rattle.resumed_calls.specs.Giving.{given_as};
ghost use Rattle.resumed_calls.specs.Onward.{HasCome};
ghost use Rattle.resumed_calls.specs.Resuming.{CanResume};
ghost use Rattle.resumed_calls.specs.Waiting.{IsAppFor};

use crate::onward::go_on;
use crate::seeing::{call_given, see_mark};
use crate::waiting::{Turn, resume_waiting};
use frame_pool::Pages;
use kernel_state::{Application, Setup, Tables};
use rpc_cont::{Cont, Phase, ResumeInput};

/// How a call is resumed.
#[derive(Drop)]
pub struct Resumed {
    /// Its slot.
    pub slot: u8,
    /// It was cancelled.
    pub marked: bool,
    /// What it is given.
    pub given: ResumeInput,
    /// Its application, where it waits for its instance and the core has that.
    pub app: Option<Application>,
}

/// Makes of a suspended call what its resume makes of it: it sees that it was cancelled, has the buffer that it is given,
/// and goes on by its phase. Takes no memory, and can't fail.
pub fn resume_call(setup: &Setup, tables: &mut Tables, cont: &mut Cont<Pages>, resumed: Resumed)
    requires boot { IsBoot (boot_of setup.now) }
    requires pages { HasFreePages setup.now tables.old }
    requires call { ∥ CanResume (booted_of_setup setup.now) (tables_of tables.old) resumed cont.old ∥₁ }
    requires app { IsAppFor (booted_of_setup setup.now) cont.old resumed.app }
    ensures call { (call : PendingCall) → IsCall cont.old call → call.marked ≡ resumed.marked
        → HasCome (tables_of tables.new) cont.new
        (onward_of (resumed_call (booted_of_setup setup.now) (tables_of tables.old) resumed.slot call (given_as resumed.given))) }
    ensures pages { HasFreePages setup.now tables.new }
{
    let Resumed {
        slot,
        marked,
        given,
        app,
    } = resumed;
    see_mark(cont, marked);
    call_given(cont, &given);
    match cont.phase {
        Phase::Waits => {
            let without_buffer = is_without_buffer(&given);
            let turn = Turn {
                slot,
                without_buffer,
                app,
            };
            resume_waiting(setup, tables, cont, turn);
        }
        Phase::Runs | Phase::Asks | Phase::Ends => go_on(cont, given),
    }
}

/// It wanted a buffer and was given none.
fn is_without_buffer(given: &ResumeInput) -> bool
    ensures { result ≡ is_without_buffer (given_as given.now) }
{
    matches!(given, ResumeInput::NoBuffer)
}
