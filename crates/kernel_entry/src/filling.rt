//! A call that is filled where it stays, in a box of which nothing of a call is there. That takes no memory.
ghost use Rattle.std.specs.Prelude.{◌≡◌, None};
ghost use Rattle.rpc_cont.specs.Beginning.{IsEntered, IsFresh};
ghost use Rattle.kernel_state.specs.Blanks.{IsBlank};
ghost use Rattle.kernel_entry.specs.Applying.{IsNew};

use frame_pool::Pages;
use rpc_cont::{CallEntry, Cont, Phase};
use ta_params::CallResult;
use ta_params::codes::TEE_SUCCESS;

/// The call is the one of this entry, with this result so far.
fn fill(cont: &mut Cont<Pages>, entered: CallEntry, outcome: CallResult, phase: Phase)
    requires { IsBlank cont.old }
    ensures fresh { IsFresh cont.new }
    ensures entered { IsEntered entered cont.new }
    ensures params { cont.new.params ≡ entered.params }
    ensures outcome { cont.new.result ≡ outcome }
    ensures phase { cont.new.phase ≡ phase }
    ensures key { cont.new.key ≡ cont.old.key }
{
    let CallEntry {
        client,
        kind,
        login,
        context,
        params,
        arg,
        area,
        places,
        session,
        instance,
    } = entered;
    cont.client = client;
    cont.kind = kind;
    cont.login = login;
    cont.context = context;
    cont.params = params;
    cont.arg = arg;
    cont.area = area;
    cont.places = places;
    cont.session = session;
    cont.instance = instance;
    cont.result = outcome;
    cont.phase = phase;
}

/// The call is the one of this entry, and waits for its instance.
pub(crate) fn fill_waiting(cont: &mut Cont<Pages>, entered: CallEntry)
    requires { IsBlank cont.old }
    ensures new { IsNew cont.new }
    ensures entered { IsEntered entered cont.new }
    ensures params { cont.new.params ≡ entered.params }
    ensures key { cont.new.key ≡ cont.old.key }
{
    fill(cont, entered, CallResult::of_tee(TEE_SUCCESS), Phase::Waits);
}

/// The call is the one of this entry, and was settled there with this result.
pub(crate) fn fill_ended(cont: &mut Cont<Pages>, entered: CallEntry, outcome: CallResult)
    requires { IsBlank cont.old }
    ensures fresh { IsFresh cont.new }
    ensures entered { IsEntered entered cont.new }
    ensures params { cont.new.params ≡ entered.params }
    ensures outcome { cont.new.result ≡ outcome }
    ensures phase { cont.new.phase ≡ Phase.Ends }
    ensures app { cont.new.app ≡ None }
{
    fill(cont, entered, outcome, Phase::Ends);
    cont.app = None;
}
