ghost use Rattle.std.specs.Prelude.{◌≡◌, IfOk, IsSome, None, Some, MatchOption};
ghost use Rattle.kernel_model.specs.Instances.{app_of};
ghost use Rattle.kernel_model.specs.NewCall.{named_session};
ghost use Rattle.kernel_state.specs.Setup.{application_of, booted_of_setup};
ghost use Rattle.kernel_state.specs.Tables.{instance_of};
ghost use Rattle.new_calls.specs.Deciding.{call_of};

use crate::call::CallAtEntry;
use base::NoMemory;
use kernel_state::Application;
use session_table::Session;
use ta_instances::Instance;

impl CallAtEntry<'_> {
    /// The session that the argument names, opened by the caller, with its instance.
    pub(crate) fn named_session(&self) -> Option<(Session, &Instance)>
        ensures { MatchOption result
            (named_session (call_of self.now) ≡ None)
            (λ named. named_session (call_of self.now) ≡ Some (named.0, instance_of named.1.now)) }
    {
        let session = self.tables.sessions.find(self.entered.head.session)?;
        if !session.opened || session.client != self.entered.client {
            return None;
        }
        let Some(instance) = self.tables.instances.get(session.instance) else {
            return None;
        };
        Some((*session, instance))
    }
    /// The application of an instance.
    pub(crate) fn app_on(&self, instance: &Instance) -> Result<Application, NoMemory>
        requires { IsSome (app_of (booted_of_setup self.now.setup.now) instance.now.uuid) }
        ensures { IfOk result (λ app.
            app_of (booted_of_setup self.now.setup.now) instance.now.uuid ≡ Some (application_of app)) }
    {
        match self.setup.application(&instance.uuid)? {
            Some(app) => Ok(app),
            None => unreachable!(),
        }
    }
}
