//! The machine of a group of sessions, and what it does at an event.
ghost use Rattle.std.specs.Prelude.{◌≡◌, ℕ, [], IfOk, IsSomeAnd, None, OnErr, OnOk, Option, Some, true};
ghost use Rattle.group_model.specs.Group.{Group as AnyGroup, nobody_there, step};
ghost use Rattle.group_model.specs.declared.group_reply.GroupReply.{GroupReply as AnyReply};
ghost use Rattle.group_solo.specs.Standing.{IsGroup, IsShortGroup, IsSomeGroup, StandsFor, app_in, entered_in};
ghost use Rattle.group_solo.specs.Stepping.{HasNumber, HasRoom, HasStepped, IsSilent};
ghost use Rattle.kernel_model.specs.Application.{booted};
ghost use Rattle.kernel_model.specs.Instances.{app_of, is_single};
ghost use Rattle.ta_isa.specs.Boots.{IsBoot};

use crate::kept_call::KeptCall;
use crate::kept_session::KeptSession;
use crate::lengths::longest_with_event;
use crate::opener::Opener;
use crate::shared::Shared;
use crate::waiter::Waiter;
use base::NoMemory;
use group_model::{GroupEvent, GroupReply};
use kernel_state::Application;
use solo::{of_boot, shared_app};
use std::alloc::Global;
use ta_isa::Boot;
use ta_params::codes::TEE_SUCCESS;
use tee_storage::Key;
use uuid::Uuid;

/// The machine of a group: of the sessions of one single-instance application.
#[derive(Drop)]
pub struct GroupSolo {
    pub(crate) app: Application,
    /// The key of the tags of object files, which the boot brings.
    pub(crate) key: Key,
    /// By their numbers, which rise.
    pub(crate) sessions: Vec<(u64, KeptSession)>,
    pub(crate) instance: Option<Shared>,
    /// The calls that wait, in the order in which they began to.
    pub(crate) waiting: Vec<Waiter>,
    /// The calls by their numbers. None where one has gone out ended.
    pub(crate) calls: Vec<Option<Box<KeptCall>>>,
    pub(crate) next_session: u64,
    pub(crate) next_instance: u64,
    /// No buffer that has come with an event has more bytes, nor has one of a call.
    pub(crate) longest: usize,
}

impl GroupSolo {
    /// The machine of the group of this UUID, which is that of a single-instance application of the boot, before a call has
    /// come in.
    pub fn new(alloc: Global, boot: &Boot, uuid: Uuid) -> Result<GroupSolo, NoMemory>
        requires boot { IsBoot boot.now }
        requires app { IsSomeAnd (app_of (booted boot.now []) uuid) (λ app. is_single app ≡ true) }
        ensures app { IfOk result (λ group. app_of (booted boot.now []) uuid ≡ Some (app_in group)) }
        ensures nobody { IfOk result (λ group. IsGroup group (nobody_there boot.now.key)) }
    {
        let Some(app) = of_boot(boot, &uuid) else {
            unreachable!();
        };
        Ok(GroupSolo {
            app: shared_app(alloc, app)?,
            key: boot.key,
            sessions: Vec::new(alloc),
            instance: None,
            waiting: Vec::new(alloc),
            calls: Vec::new(alloc),
            next_session: 0,
            next_instance: 1,
            longest: 0,
        })
    }

    /// What the machine does at an event: its reply, if it has one. A call that comes in has to be among the first 2^32 of
    /// the group, since events name calls by numbers of 32 bits. Nothing else is said of an event that the machine doesn't
    /// take.
    pub fn step(
        &mut self,
        alloc: Global,
        event: &GroupEvent,
    ) -> Result<Option<GroupReply>, NoMemory>
        requires some { ∥ IsSomeGroup self.old ∥₁ }
        requires number { HasNumber (entered_in self.old) event.now }
        ensures ok { (most : ℕ) (g next : AnyGroup) (told : Option AnyReply) → IsGroup self.old g
            → HasRoom most g event.now → step most (app_in self.old) g event.now ≡ Some (next, told)
            → IfOk result (λ answer. HasStepped self.new answer next told) }
        ensures err { (g : AnyGroup) → IsGroup self.old g → OnErr result (IsGroup self.new g) }
        ensures app { app_in self.new ≡ app_in self.old }
    {
        let longest = longest_with_event(self.longest, event);
        let answer = self.step_within(alloc, event, longest);
        self.longest = longest;
        answer
    }

    /// The same, where no buffer of a call has more than so many bytes.
    fn step_within(
        &mut self,
        alloc: Global,
        event: &GroupEvent,
        longest: usize,
    ) -> Result<Option<GroupReply>, NoMemory>
        requires some { ∥ IsSomeGroup self.old ∥₁ }
        requires number { HasNumber (entered_in self.old) event.now }
        ensures ok { (most : ℕ) (g next : AnyGroup) (told : Option AnyReply) → IsGroup self.old g
            → IsShortGroup longest g → HasRoom most g event.now
            → step most (app_in self.old) g event.now ≡ Some (next, told)
            → IfOk result (λ answer. (answer ≡ told) × StandsFor self.new next) }
        ensures err { (g : AnyGroup) → StandsFor self.old g → OnErr result (StandsFor self.new g) }
        ensures app { self.new.app ≡ self.old.app }
    {
        match event {
            GroupEvent::Out { call } => self.go_out(alloc, *call, longest),
            GroupEvent::Open { .. }
            | GroupEvent::Invoke { .. }
            | GroupEvent::Close { .. }
            | GroupEvent::Cancel { .. }
            | GroupEvent::Seen { .. }
            | GroupEvent::Room { .. }
            | GroupEvent::Back { .. } => {
                self.step_silently(alloc, event)?;
                Ok(None)
            }
        }
    }

    /// What it does at an event that isn't answered.
    fn step_silently(&mut self, alloc: Global, event: &GroupEvent) -> Result<(), NoMemory>
        requires some { ∥ IsSomeGroup self.old ∥₁ }
        requires number { HasNumber (entered_in self.old) event.now }
        ensures ok { (most : ℕ) (g next : AnyGroup) (told : Option AnyReply) → IsGroup self.old g
            → IsSilent event.now
            → step most (app_in self.old) g event.now ≡ Some (next, told)
            → OnOk result ((None ≡ told) × StandsFor self.new next) }
        ensures err { (g : AnyGroup) → StandsFor self.old g → OnErr result (StandsFor self.new g) }
        ensures app { self.new.app ≡ self.old.app }
    {
        match event {
            GroupEvent::Open {
                input,
                login,
                limited,
                area,
            } => {
                let opener = Opener {
                    login: *login,
                    area: *area,
                };
                self.test_and_open(alloc, input, opener, *limited)
            }
            GroupEvent::Invoke {
                session,
                func,
                input,
                area,
            } => self.invoke(alloc, u64::from(*session), *func, input, *area),
            GroupEvent::Close { session, area } => { self.close(alloc, u64::from(*session), *area) }
            GroupEvent::Cancel { .. } => self.settle(alloc, false, TEE_SUCCESS),
            GroupEvent::Seen { call, steps } => {
                self.see(*call, *steps);
                Ok(())
            }
            GroupEvent::Room { call, enough } => {
                self.tell_room(*call, *enough);
                Ok(())
            }
            GroupEvent::Back { call, input } => self.come_back(alloc, *call, input),
            GroupEvent::Out { .. } => Ok(()),
        }
    }
}
