//! What the end of a call makes of the session and of its instance.
ghost use Rattle.std.specs.Prelude.{◌≡◌, [], None, Some, true, false};
ghost use Rattle.std.specs.Option.{option_and_then, option_map};
ghost use Rattle.job_model.specs.Steps.{End as AnyEnd};
ghost use Rattle.kernel_model.specs.Instances.{given_back, killed};
ghost use Rattle.kernel_state.specs.Calls.{bytes_of, woken_slot};
ghost use Rattle.own_model.specs.Solo.{gives_back, instance_back, session_ended, session_panicked, session_unrun, woken_by};
ghost use Rattle.rpc_cont.specs.Conts.{end_left, kept_memory};
ghost use Rattle.solo.specs.Standing.{session_of, without_calls};

use crate::kept_session::KeptSession;
use crate::solo_session::SoloSession;
use job_model::CallKind;
use rpc_cont::{Asked, Cont};
use rpc_msgs::{Payload, Rpc};
use std::mem;
use ta_params::CallResult;
use ta_params::codes::TEE_SUCCESS;
use ta_step::Plain;
use tee_storage::Handles;

/// The session after a call of this kind has ended with this result: an open that succeeds opens it with the context,
/// one that fails and a close take it away.
fn session_ended(
    kind: CallKind,
    outcome: CallResult,
    context: u32,
    session: KeptSession,
) -> Option<KeptSession>
    ensures { (end : AnyEnd) → end.result ≡ outcome → end.context ≡ context
        → option_map session_of result ≡ session_ended kind end (session_of session) }
{
    match kind {
        CallKind::Open => (outcome.result == TEE_SUCCESS).then_some(KeptSession {
            login: session.login,
            context,
            opened: true,
        }),
        CallKind::Close => None,
        CallKind::Invoke { .. } | CallKind::Settled => Some(session),
    }
}

/// After it has panicked: an open leaves no session, and a close takes its session away.
fn session_panicked(kind: CallKind, session: KeptSession) -> Option<KeptSession>
    ensures { option_map session_of result ≡ session_panicked kind (session_of session) }
{
    match kind {
        CallKind::Open | CallKind::Close => None,
        CallKind::Invoke { .. } | CallKind::Settled => Some(session),
    }
}

/// After it has ended without having run: an open leaves no session, and a close keeps its own.
fn session_unrun(kind: CallKind, session: KeptSession) -> Option<KeptSession>
    ensures { option_map session_of result ≡ session_unrun kind (session_of session) }
{
    match kind {
        CallKind::Open => None,
        CallKind::Invoke { .. } | CallKind::Close | CallKind::Settled => Some(session),
    }
}

/// What asks for the call of a number to be woken, if one is.
pub fn asked_wake(woken: Option<u32>) -> Option<Asked>
    ensures { option_and_then (λ asked. woken_slot asked.rpc) result ≡ woken }
{
    let number = woken?;
    Some(Asked {
        rpc: Rpc::Wake(number),
        payload: Payload::new(),
    })
}

impl SoloSession {
    /// The call that is woken: the first that waits, where no call holds the instance.
    fn woken_by(&self, kind: CallKind) -> Option<u32>
        ensures { result ≡ woken_by (without_calls self.now) kind }
    {
        match kind {
            CallKind::Settled => None,
            CallKind::Open | CallKind::Invoke { .. } | CallKind::Close => {
                if self.is_held() {
                    return None;
                }
                self.waiting.as_slice().first().copied()
            }
        }
    }

    /// The result of a call is told from now on; whom it wakes is fixed now.
    fn show(&self, cont: &mut Cont<Plain>)
        ensures wakes { option_and_then (λ asked. woken_slot asked.rpc) cont.new.request
            ≡ woken_by (without_calls self.now) cont.old.kind }
        ensures stays { cont.new ≡ record cont.old { request = cont.new.request; done = true } }
    {
        cont.request = asked_wake(self.woken_by(cont.kind));
        cont.done = true;
    }

    /// The instance goes, once it was put back, at its end, and where it is dead and its session isn't opened any more.
    fn remove_instance(&mut self, is_last: bool)
        ensures goes { (without_calls self.new).instance
            ≡ option_and_then (instance_back (without_calls self.old).session is_last) (without_calls self.old).instance }
        ensures stays { self.new ≡ record self.old { instance = self.new.instance } }
    {
        let goes = match &self.instance {
            Some(instance) => is_last || instance.dead && !self.is_opened(),
            None => false,
        };
        if goes {
            self.instance = None;
        }
    }

    /// Puts memory and open objects back, and no call holds the instance.
    fn put_back(&mut self, memory: Option<Plain>, objects: Handles)
        ensures back { (without_calls self.new).instance
            ≡ option_map (given_back (kept_memory bytes_of memory) objects) (without_calls self.old).instance }
        ensures stays { self.new ≡ record self.old { instance = self.new.instance } }
    {
        if let Some(instance) = &mut self.instance {
            instance.holder = None;
            instance.memory = memory;
            instance.objects = objects;
        }
    }

    /// Kills the instance, which no call holds then.
    fn kill(&mut self)
        ensures killed { (without_calls self.new).instance ≡ option_map killed (without_calls self.old).instance }
        ensures stays { self.new ≡ record self.old { instance = self.new.instance } }
    {
        if let Some(instance) = &mut self.instance {
            instance.dead = true;
            instance.holder = None;
            instance.memory = None;
            instance.objects = Handles::new();
        }
    }

    /// What becomes of the session after a call of this kind has ended with this result.
    fn end_session(&mut self, kind: CallKind, outcome: CallResult, context: u32)
        ensures session { (end : AnyEnd) → end.result ≡ outcome → end.context ≡ context
            → without_calls self.new ≡ record (without_calls self.old) {
              session = option_and_then (session_ended kind end) (without_calls self.old).session;
            } }
        ensures stays { self.new ≡ record self.old { session = self.new.session } }
    {
        self.session = match self.session {
            Some(session) => session_ended(kind, outcome, context, session),
            None => None,
        };
    }

    /// A call gives the instance back with this memory and these open objects.
    fn give_back(&mut self, is_last: bool, memory: Option<Plain>, objects: Handles)
        ensures back { without_calls self.new
            ≡ gives_back (without_calls self.old) (without_calls self.old).session is_last
            (given_back (kept_memory bytes_of memory) objects) }
        ensures stays { self.new ≡ record self.old { instance = self.new.instance } }
    {
        self.put_back(memory, objects);
        self.remove_instance(is_last);
    }

    /// After the job of a call has ended: it gives the instance back.
    pub(crate) fn end_job(&mut self, cont: &mut Cont<Plain>)
        ensures beside { without_calls self.new ≡ (let end = end_left bytes_of cont.old in
            let session = option_and_then (session_ended cont.old.kind end) (without_calls self.old).session in
            gives_back (without_calls self.old) session end.is_last (given_back end.memory end.objects)) }
        ensures wakes { option_and_then (λ asked. woken_slot asked.rpc) cont.new.request
            ≡ woken_by (without_calls self.new) cont.old.kind }
        ensures stays { cont.new
            ≡ record cont.old { memory = None; objects = []; request = cont.new.request; done = true } }
        ensures app { self.new.app ≡ self.old.app }
        ensures calls { self.new.calls ≡ self.old.calls }
    {
        self.end_session(cont.kind, cont.result, cont.context);
        let is_last = cont.ends_instance();
        let memory = cont.memory.take();
        let objects = mem::replace(&mut cont.objects, Handles::new());
        self.give_back(is_last, memory, objects);
        self.show(cont);
    }

    /// After it has panicked: the instance is dead.
    pub(crate) fn end_panicked(&mut self, cont: &mut Cont<Plain>)
        ensures beside { without_calls self.new ≡ (
            let session = option_and_then (session_panicked cont.old.kind) (without_calls self.old).session in
            gives_back (without_calls self.old) session false killed) }
        ensures wakes { option_and_then (λ asked. woken_slot asked.rpc) cont.new.request
            ≡ woken_by (without_calls self.new) cont.old.kind }
        ensures stays { cont.new
            ≡ record cont.old { memory = None; params = None; request = cont.new.request; done = true } }
        ensures app { self.new.app ≡ self.old.app }
        ensures calls { self.new.calls ≡ self.old.calls }
    {
        let kind = cont.kind;
        self.session = match self.session {
            Some(session) => session_panicked(kind, session),
            None => None,
        };
        cont.memory = None;
        cont.params = None;
        self.kill();
        self.remove_instance(false);
        self.show(cont);
    }

    /// After it has ended without having run.
    pub(crate) fn end_unrun(&mut self, cont: &mut Cont<Plain>)
        ensures beside { without_calls self.new ≡ record (without_calls self.old) {
          session = option_and_then (session_unrun cont.old.kind) (without_calls self.old).session;
        } }
        ensures wakes { option_and_then (λ asked. woken_slot asked.rpc) cont.new.request
            ≡ woken_by (without_calls self.new) cont.old.kind }
        ensures stays { cont.new ≡ record cont.old { request = cont.new.request; done = true } }
        ensures app { self.new.app ≡ self.old.app }
        ensures calls { self.new.calls ≡ self.old.calls }
    {
        let kind = cont.kind;
        self.session = match self.session {
            Some(session) => session_unrun(kind, session),
            None => None,
        };
        self.show(cont);
    }
}
