//! What the end of a call makes of its session and of its instance.
ghost use Rattle.std.specs.Prelude.{◌≡◌, [], None, Some, true, false};
ghost use Rattle.std.specs.Option.{option_and_then, option_map, option_map_or};
ghost use Rattle.base.specs.NumberMap.{IsRising};
ghost use Rattle.group_model.specs.Group.{instance_at, instance_back, sessions_ended, sessions_panicked, sessions_unrun};
ghost use Rattle.group_solo.specs.Ending.{after_end, after_panic, after_unrun, home_of, is_woken, with_instance_back};
ghost use Rattle.group_solo.specs.Standing.{sessions_of, without_calls};
ghost use Rattle.job_model.specs.Steps.{End as AnyEnd};
ghost use Rattle.kernel_model.specs.Instances.{given_back, killed};
ghost use Rattle.kernel_state.specs.Calls.{bytes_of, woken_slot};
ghost use Rattle.rpc_cont.specs.Conts.{end_left, kept_memory};

use crate::group::GroupSolo;
use crate::kept_call::KeptCall;
use crate::sessions::has_opened;
use job_model::CallKind;
use solo::asked_wake;
use std::mem;
use ta_params::CallResult;
use ta_params::codes::TEE_SUCCESS;
use ta_step::Plain;
use tee_storage::Handles;

impl GroupSolo {
    /// Whom a call of this kind wakes that leaves the instance of a number: the first that waits for that, where no call
    /// holds it. A call that was settled as it came in wakes none.
    fn woken_by(&self, kind: CallKind, instance: u64) -> Option<u32>
        ensures { result ≡ is_woken (without_calls self.now) instance kind }
    {
        match kind {
            CallKind::Settled => None,
            CallKind::Open | CallKind::Invoke { .. } | CallKind::Close => {
                if self.is_held(instance) {
                    return None;
                }
                self.first_waiter(instance)
            }
        }
    }

    /// The result of a call is told from now on; whom it wakes is fixed now.
    fn show(&self, call: &mut KeptCall)
        ensures wakes { option_and_then (λ asked. woken_slot asked.rpc) call.new.cont.request
            ≡ is_woken (without_calls self.now) call.old.instance call.old.cont.kind }
        ensures stays { call.new ≡ record call.old { cont = record call.old.cont { request = call.new.cont.request; done = true } } }
    {
        call.cont.request = asked_wake(self.woken_by(call.cont.kind, call.instance));
        call.cont.done = true;
    }

    /// What the end of a call of this kind with this result makes of the sessions: an open that succeeds opens its own with
    /// the context, one that fails and a close take theirs away.
    fn end_session(&mut self, kind: CallKind, session: u64, outcome: CallResult, context: u32)
        ensures sessions { (end : AnyEnd) → end.result ≡ outcome → end.context ≡ context
            → IsRising (sessions_of self.old.sessions.items)
            → sessions_of self.new.sessions.items
            ≡ sessions_ended kind (sessions_of self.old.sessions.items) session end }
        ensures stays { self.new ≡ record self.old { sessions = self.new.sessions } }
    {
        match kind {
            CallKind::Open if outcome.result == TEE_SUCCESS => self.open_session(session, context),
            CallKind::Open | CallKind::Close => self.remove_session(session),
            CallKind::Invoke { .. } | CallKind::Settled => {}
        }
    }

    /// What a panic does: an open and a close take theirs away.
    fn end_panicked_session(&mut self, kind: CallKind, session: u64)
        ensures sessions { sessions_of self.new.sessions.items
            ≡ sessions_panicked kind (sessions_of self.old.sessions.items) session }
        ensures stays { self.new ≡ record self.old { sessions = self.new.sessions } }
    {
        match kind {
            CallKind::Open | CallKind::Close => self.remove_session(session),
            CallKind::Invoke { .. } | CallKind::Settled => {}
        }
    }

    /// And the end of a call that never ran: an open takes its own away, a close keeps it.
    fn end_unrun_session(&mut self, kind: CallKind, session: u64)
        ensures sessions { sessions_of self.new.sessions.items
            ≡ sessions_unrun kind (sessions_of self.old.sessions.items) session }
        ensures stays { self.new ≡ record self.old { sessions = self.new.sessions } }
    {
        match kind {
            CallKind::Open => self.remove_session(session),
            CallKind::Invoke { .. } | CallKind::Close | CallKind::Settled => {}
        }
    }

    /// The instance goes, once it was put back, at its end, and where it is dead and no session is opened on it any more.
    fn remove_instance(&mut self, is_last: bool)
        ensures goes { (without_calls self.new).instance ≡ option_and_then
            (λ there. instance_back (without_calls self.old).sessions is_last there.0 there.1)
            (without_calls self.old).instance }
        ensures stays { self.new ≡ record self.old { instance = self.new.instance } }
    {
        let goes = match &self.instance {
            Some(shared) => {
                is_last || shared.kept.dead && !has_opened(self.sessions.as_slice(), shared.number)
            }
            None => false,
        };
        if goes {
            self.instance = None;
        }
    }

    /// Puts memory and open objects back, and no call holds the instance.
    fn put_back(&mut self, memory: Option<Plain>, objects: Handles)
        ensures back { (without_calls self.new).instance ≡ option_map
            (λ there. (there.0, given_back (kept_memory bytes_of memory) objects there.1)) (without_calls self.old).instance }
        ensures stays { self.new ≡ record self.old { instance = self.new.instance } }
    {
        if let Some(shared) = &mut self.instance {
            shared.kept.holder = None;
            shared.kept.memory = memory;
            shared.kept.objects = objects;
        }
    }

    /// Kills the instance, which no call holds then.
    fn kill(&mut self)
        ensures killed { (without_calls self.new).instance
            ≡ option_map (λ there. (there.0, killed there.1)) (without_calls self.old).instance }
        ensures stays { self.new ≡ record self.old { instance = self.new.instance } }
    {
        if let Some(shared) = &mut self.instance {
            shared.kept.dead = true;
            shared.kept.holder = None;
            shared.kept.memory = None;
            shared.kept.objects = Handles::new();
        }
    }

    /// A call gives the instance of a number back with this memory and these open objects, if that is there.
    fn give_back(&mut self, number: u64, is_last: bool, memory: Option<Plain>, objects: Handles)
        ensures back { without_calls self.new
            ≡ with_instance_back (without_calls self.old) number is_last
            (given_back (kept_memory bytes_of memory) objects) }
        ensures stays { self.new ≡ record self.old { instance = self.new.instance } }
    {
        let there = self.at(number).is_some();
        if there {
            self.put_back(memory, objects);
            self.remove_instance(is_last);
        }
    }

    /// A call that has panicked gives it back, dead.
    fn give_back_dead(&mut self, number: u64)
        ensures back { without_calls self.new ≡ with_instance_back (without_calls self.old) number false killed }
        ensures stays { self.new ≡ record self.old { instance = self.new.instance } }
    {
        let there = self.at(number).is_some();
        if there {
            self.kill();
            self.remove_instance(false);
        }
    }

    /// After the job of a call has ended: it gives the instance back.
    pub(crate) fn end_job(&mut self, call: &mut KeptCall)
        ensures beside { IsRising (sessions_of self.old.sessions.items) → without_calls self.new
            ≡ after_end (without_calls self.old) (home_of call.old) (end_left bytes_of call.old.cont) }
        ensures wakes { option_and_then (λ asked. woken_slot asked.rpc) call.new.cont.request
            ≡ is_woken (without_calls self.new) call.old.instance call.old.cont.kind }
        ensures stays { call.new ≡ record call.old {
          cont = record call.old.cont { memory = None; objects = []; request = call.new.cont.request; done = true };
        } }
        ensures app { self.new.app ≡ self.old.app }
        ensures calls { self.new.calls ≡ self.old.calls }
    {
        self.end_session(
            call.cont.kind,
            call.session,
            call.cont.result,
            call.cont.context,
        );
        let is_last = call.cont.ends_instance();
        let memory = call.cont.memory.take();
        let objects = mem::replace(&mut call.cont.objects, Handles::new());
        self.give_back(call.instance, is_last, memory, objects);
        self.show(call);
    }

    /// After it has panicked: the instance is dead.
    pub(crate) fn end_panicked(&mut self, call: &mut KeptCall)
        ensures beside { without_calls self.new ≡ after_panic (without_calls self.old) (home_of call.old) }
        ensures wakes { option_and_then (λ asked. woken_slot asked.rpc) call.new.cont.request
            ≡ is_woken (without_calls self.new) call.old.instance call.old.cont.kind }
        ensures stays { call.new ≡ record call.old {
          cont = record call.old.cont { memory = None; params = None; request = call.new.cont.request; done = true };
        } }
        ensures app { self.new.app ≡ self.old.app }
        ensures calls { self.new.calls ≡ self.old.calls }
    {
        self.end_panicked_session(call.cont.kind, call.session);
        call.cont.memory = None;
        call.cont.params = None;
        self.give_back_dead(call.instance);
        self.show(call);
    }

    /// After it has ended without having run.
    pub(crate) fn end_unrun(&mut self, call: &mut KeptCall)
        ensures beside { without_calls self.new ≡ after_unrun (without_calls self.old) (home_of call.old) }
        ensures wakes { option_and_then (λ asked. woken_slot asked.rpc) call.new.cont.request
            ≡ is_woken (without_calls self.new) call.old.instance call.old.cont.kind }
        ensures stays { call.new ≡ record call.old {
          cont = record call.old.cont { request = call.new.cont.request; done = true };
        } }
        ensures app { self.new.app ≡ self.old.app }
        ensures calls { self.new.calls ≡ self.old.calls }
    {
        self.end_unrun_session(call.cont.kind, call.session);
        self.show(call);
    }
}
