//! Opens.
ghost use Rattle.std.specs.Prelude.{◌≡◌, ◌+◌, false, ◌<◌, ◌^◌, ℕ, None, OnErr, OnOk, Some};
ghost use Rattle.kernel_model.specs.Kernel.{Instance as AnyInstance};
ghost use Rattle.begin_call.specs.Begins.{IsValidApp};
ghost use Rattle.group_model.specs.Group.{Group as AnyGroup, about_open, open_begins, open_waits, opens, opens_kept, opens_made, opens_tested, start_of_open};
ghost use Rattle.group_solo.specs.Coming.{about_of, opener_of};
ghost use Rattle.group_solo.specs.Opening.{next_behind_new, number_of_new};
ghost use Rattle.group_solo.specs.Standing.{IsNumbered, StandsFor, app_in, entered_in, session_of, without_calls};
ghost use Rattle.kernel_model.specs.Application.{uuid_of};
ghost use Rattle.solo.specs.Standing.{instance_of};

use crate::about::About;
use crate::group::GroupSolo;
use crate::kept_session::KeptSession;
use crate::opener::Opener;
use crate::shared::Shared;
use crate::waiter::Waiter;
use base::NoMemory;
use begin_call::Points;
use job_model::CallKind;
use own_model::OwnInput;
use solo::{KeptInstance, made_instance};
use std::alloc::Global;
use ta_params::CopiedParams;
use ta_params::codes::{
    TEE_ERROR_BAD_PARAMETERS, TEE_ERROR_BUSY, TEE_ERROR_OUT_OF_MEMORY, TEE_ERROR_TARGET_DEAD,
};

/// A session that is being opened.
fn opening(opener: Opener, instance: u64) -> KeptSession
    ensures { session_of result
        ≡ record { login = opener.login; context = 0; opened = false; instance = instance } }
{
    KeptSession {
        login: opener.login,
        context: 0,
        opened: false,
        instance,
    }
}

impl GroupSolo {
    /// The call of an open on the instance of a number, whose session gets the next number.
    fn about_open(&self, opener: Opener, instance: u64) -> About
        ensures { about_of result ≡ about_open (without_calls self.now) opener.area instance }
    {
        About {
            kind: CallKind::Open,
            area: opener.area,
            session: self.next_session,
            instance,
        }
    }

    /// One comes in on an instance that another call holds.
    fn wait_to_open(
        &mut self,
        alloc: Global,
        params: &CopiedParams,
        opener: Opener,
        instance: u64,
    ) -> Result<(), NoMemory>
        requires { entered_in self.old < 2 ^ 32 }
        ensures ok { (g : AnyGroup) → StandsFor self.old g → IsNumbered g
            → OnOk result (StandsFor self.new (open_waits g params.now (opener_of opener) instance)) }
        ensures err { (g : AnyGroup) → StandsFor self.old g → OnErr result (StandsFor self.new g) }
        ensures app { self.new.app ≡ self.old.app }
    {
        let waiter = Waiter {
            call: self.next_number(),
            instance,
        };
        self.sessions.reserve(1)?;
        self.waiting.reserve(1)?;
        self.calls.reserve(1)?;
        let call = self.fresh_call(alloc, self.about_open(opener, instance), Some(params))?;
        self.add_session(opening(opener, instance));
        self.wait_last(waiter, call);
        Ok(())
    }

    /// One comes in and begins on the instance that is there, which no call holds.
    fn open_kept(
        &mut self,
        alloc: Global,
        params: &CopiedParams,
        opener: Opener,
        instance: u64,
    ) -> Result<(), NoMemory>
        requires valid { IsValidApp (app_in self.old) }
        requires number { entered_in self.old < 2 ^ 32 }
        ensures ok { (g : AnyGroup) (there : ℕ × AnyInstance) → StandsFor self.old g → IsNumbered g
            → g.instance ≡ Some there → instance ≡ there.0
            → OnOk result (StandsFor self.new (open_begins g (opener_of opener)
            (opens_kept (app_in self.old) g (start_of_open g params.now opener.login) there))) }
        ensures err { (g : AnyGroup) → StandsFor self.old g → OnErr result (StandsFor self.new g) }
        ensures app { self.new.app ≡ self.old.app }
    {
        let number = self.next_number();
        self.sessions.reserve(1)?;
        self.calls.reserve(1)?;
        let call = self.fresh_call(alloc, self.about_open(opener, instance), Some(params))?;
        let ready = self.ready(alloc)?;
        let points = Points::opening(false, self.destroys(instance));
        self.add_session(opening(opener, instance));
        self.begin_last(number, call, ready, points);
        Ok(())
    }

    /// The number of a new instance: the one for which calls still wait, so that they find it, and else the next one.
    fn new_number(&mut self) -> u64
        ensures number { result ≡ number_of_new (without_calls self.old) }
        ensures next { self.old.next_instance + 1 < 2 ^ 64
            → self.new.next_instance ≡ next_behind_new (without_calls self.old) }
        ensures stays { self.new ≡ record self.old { next_instance = self.new.next_instance } }
    {
        match self.awaited_number() {
            Some(number) => number,
            None => {
                let number = self.next_instance;
                self.next_instance = number.saturating_add(1);
                number
            }
        }
    }

    /// This is the instance from now on.
    pub(crate) fn place(&mut self, number: u64, kept: KeptInstance)
        ensures instance { (without_calls self.new).instance
            ≡ Some (number, instance_of (uuid_of (app_in self.old)) kept) }
        ensures stays { self.new ≡ record self.old { instance = self.new.instance } }
    {
        self.instance = Some(Shared { number, kept });
    }

    /// One comes in and begins on a new instance, which is made first.
    fn open_made(
        &mut self,
        alloc: Global,
        params: &CopiedParams,
        opener: Opener,
    ) -> Result<(), NoMemory>
        requires valid { IsValidApp (app_in self.old) }
        requires number { entered_in self.old < 2 ^ 32 }
        ensures ok { (g : AnyGroup) → StandsFor self.old g → IsNumbered g → g.instance ≡ None
            → OnOk result (StandsFor self.new (open_begins g (opener_of opener)
            (opens_made (app_in self.old) g (start_of_open g params.now opener.login)))) }
        ensures err { (g : AnyGroup) → StandsFor self.old g → OnErr result (StandsFor self.new g) }
        ensures app { self.new.app ≡ self.old.app }
    {
        let number = self.next_number();
        self.sessions.reserve(1)?;
        self.calls.reserve(1)?;
        let mut call = self.fresh_call(alloc, self.about_open(opener, 0), Some(params))?;
        let kept = made_instance(alloc, &self.app)?;
        let ready = self.ready(alloc)?;
        let instance = self.new_number();
        call.instance = instance;
        let points = Points::opening(true, self.destroys(instance));
        self.place(instance, kept);
        self.add_session(opening(opener, instance));
        self.begin_last(number, call, ready, points);
        Ok(())
    }

    /// One comes in that passed the tests: it waits where another call holds the instance that is there.
    fn open(&mut self, alloc: Global, params: &CopiedParams, opener: Opener) -> Result<(), NoMemory>
        requires valid { IsValidApp (app_in self.old) }
        requires number { entered_in self.old < 2 ^ 32 }
        ensures ok { (g : AnyGroup) → StandsFor self.old g → IsNumbered g
            → OnOk result (StandsFor self.new (opens (app_in self.old) g params.now (opener_of opener))) }
        ensures err { (g : AnyGroup) → StandsFor self.old g → OnErr result (StandsFor self.new g) }
        ensures app { self.new.app ≡ self.old.app }
    {
        let Some(there) = self.there() else {
            return self.open_made(alloc, params, opener);
        };
        if there.found.held {
            self.wait_to_open(alloc, params, opener, there.number)
        } else {
            self.open_kept(alloc, params, opener, there.number)
        }
    }

    /// An open comes in. Its tests in their order: a dead instance, a session that has it alone, a shared limit, and faulty
    /// parameters.
    pub(crate) fn test_and_open(
        &mut self,
        alloc: Global,
        input: &OwnInput,
        opener: Opener,
        limited: bool,
    ) -> Result<(), NoMemory>
        requires valid { IsValidApp (app_in self.old) }
        requires number { entered_in self.old < 2 ^ 32 }
        ensures ok { (g next : AnyGroup) → StandsFor self.old g → IsNumbered g
            → opens_tested (app_in self.old) g input.now (opener_of opener) limited ≡ Some next
            → OnOk result (StandsFor self.new next) }
        ensures err { (g : AnyGroup) → StandsFor self.old g → OnErr result (StandsFor self.new g) }
        ensures app { self.new.app ≡ self.old.app }
    {
        if self.is_dead() {
            return self.settle(alloc, opener.area, TEE_ERROR_TARGET_DEAD);
        }
        if self.is_taken() {
            return self.settle(alloc, opener.area, TEE_ERROR_BUSY);
        }
        if limited {
            return self.settle(alloc, opener.area, TEE_ERROR_OUT_OF_MEMORY);
        }
        match input {
            OwnInput::Copied(params) => self.open(alloc, params, opener),
            OwnInput::Faulty | OwnInput::Unread => {
                self.settle(alloc, opener.area, TEE_ERROR_BAD_PARAMETERS)
            }
        }
    }
}
