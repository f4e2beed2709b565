//! The machine of a session, and what it does at an event.
ghost use Rattle.std.specs.Prelude.{◌≡◌, ℕ, IfOk, IsSome, None, OnErr, OnOk, Option, Some};
ghost use Rattle.kernel_model.specs.Application.{booted};
ghost use Rattle.kernel_model.specs.Instances.{app_of};
ghost use Rattle.native_tas.specs.Table.{entries};
ghost use Rattle.own_model.specs.Solo.{Solo as AnySolo, step, unopened};
ghost use Rattle.own_model.specs.declared.own_reply.OwnReply.{OwnReply as AnyReply};
ghost use Rattle.solo.specs.Short.{IsShortSolo};
ghost use Rattle.solo.specs.Standing.{IsSolo, IsSomeSolo, StandsFor, app_in, entered_in};
ghost use Rattle.solo.specs.Stepping.{HasNumber, HasRoom, HasStepped, IsSilent};
ghost use Rattle.ta_isa.specs.Boots.{IsBoot};

use crate::apps::application;
use crate::kept_instance::KeptInstance;
use crate::kept_session::KeptSession;
use crate::lengths::longest_with_event;
use base::NoMemory;
use kernel_state::Application;
use native_tas::Natives;
use own_model::{OwnEvent, OwnReply};
use rpc_cont::Cont;
use std::alloc::Global;
use ta_isa::Boot;
use ta_params::codes::TEE_SUCCESS;
use ta_step::Plain;
use tee_storage::Key;
use uuid::Uuid;

/// A session's own machine.
#[derive(Drop)]
pub struct SoloSession {
    pub(crate) app: Application,
    /// The key of the tags of object files, which the boot brings.
    pub(crate) key: Key,
    /// None before its open has come in, and none once it is gone.
    pub(crate) session: Option<KeptSession>,
    pub(crate) instance: Option<KeptInstance>,
    /// The calls that wait for the instance, in the order in which they began to.
    pub(crate) waiting: Vec<u32>,
    /// The calls by their numbers. None where one has gone out ended.
    pub(crate) calls: Vec<Option<Box<Cont<Plain>>>>,
    /// No buffer that has come with an event has more bytes, nor has one of a call.
    pub(crate) longest: usize,
}

impl SoloSession {
    /// The machine of a session of the application of this UUID, before its open comes in.
    pub fn new(
        alloc: Global,
        boot: &Boot,
        natives: &Natives,
        uuid: Uuid,
    ) -> Result<SoloSession, NoMemory>
        requires boot { IsBoot boot.now }
        requires app { IsSome (app_of (booted boot.now (entries natives.now)) uuid) }
        ensures app { IfOk result (λ session. app_of (booted boot.now (entries natives.now)) uuid
            ≡ Some (app_in session)) }
        ensures unopened { IfOk result (λ session. IsSolo session (unopened boot.now.key)) }
    {
        let Some(app) = application(alloc, boot, natives, &uuid)? else {
            unreachable!();
        };
        Ok(SoloSession {
            app,
            key: boot.key,
            session: None,
            instance: None,
            waiting: Vec::new(alloc),
            calls: Vec::new(alloc),
            longest: 0,
        })
    }

    /// What the machine does at an event: its reply, if it has one. A call that comes in has to be among the first 2^32 of
    /// the session, since events name calls by numbers of 32 bits. Nothing else is said of an event that can't come to the
    /// session.
    pub fn step(&mut self, alloc: Global, event: &OwnEvent) -> Result<Option<OwnReply>, NoMemory>
        requires some { ∥ IsSomeSolo self.old ∥₁ }
        requires number { HasNumber (entered_in self.old) event.now }
        ensures ok { (most : ℕ) (solo next : AnySolo) (told : Option AnyReply) → IsSolo self.old solo
            → HasRoom most solo event.now → step most (app_in self.old) solo event.now ≡ Some (next, told)
            → IfOk result (λ answer. HasStepped self.new answer next told) }
        ensures err { (solo : AnySolo) → IsSolo self.old solo → OnErr result (IsSolo self.new solo) }
        ensures app { app_in self.new ≡ app_in self.old }
    {
        let longest = longest_with_event(self.longest, event);
        let answer = self.step_within(alloc, event, longest);
        self.longest = longest;
        answer
    }

    /// The same, where no buffer of a call has more than so many bytes.
    fn step_within(
        &mut self,
        alloc: Global,
        event: &OwnEvent,
        longest: usize,
    ) -> Result<Option<OwnReply>, NoMemory>
        requires some { ∥ IsSomeSolo self.old ∥₁ }
        requires number { HasNumber (entered_in self.old) event.now }
        ensures ok { (most : ℕ) (solo next : AnySolo) (told : Option AnyReply) → IsSolo self.old solo
            → IsShortSolo longest solo → HasRoom most solo event.now
            → step most (app_in self.old) solo event.now ≡ Some (next, told)
            → IfOk result (λ answer. (answer ≡ told) × StandsFor self.new next) }
        ensures err { (solo : AnySolo) → StandsFor self.old solo → OnErr result (StandsFor self.new solo) }
        ensures app { self.new.app ≡ self.old.app }
    {
        match event {
            OwnEvent::Out { call } => self.go_out(alloc, *call, longest),
            OwnEvent::Limited => Ok(Some(OwnReply::Limited)),
            OwnEvent::Open { .. }
            | OwnEvent::Invoke { .. }
            | OwnEvent::Close { .. }
            | OwnEvent::Cancel
            | OwnEvent::Seen { .. }
            | OwnEvent::Back { .. } => {
                self.step_silently(alloc, event)?;
                Ok(None)
            }
        }
    }

    /// What it does at an event that isn't answered.
    fn step_silently(&mut self, alloc: Global, event: &OwnEvent) -> Result<(), NoMemory>
        requires some { ∥ IsSomeSolo self.old ∥₁ }
        requires number { HasNumber (entered_in self.old) event.now }
        ensures ok { (most : ℕ) (solo next : AnySolo) (told : Option AnyReply) → IsSolo self.old solo
            → IsSilent event.now
            → step most (app_in self.old) solo event.now ≡ Some (next, told)
            → OnOk result ((None ≡ told) × StandsFor self.new next) }
        ensures err { (solo : AnySolo) → StandsFor self.old solo → OnErr result (StandsFor self.new solo) }
        ensures app { self.new.app ≡ self.old.app }
    {
        match event {
            OwnEvent::Open {
                params,
                login,
                area,
            } => self.open(alloc, params, *login, *area),
            OwnEvent::Invoke { func, input, area } => self.invoke(alloc, *func, input, *area),
            OwnEvent::Close { area } => self.close(alloc, *area),
            OwnEvent::Cancel => self.settle(alloc, false, TEE_SUCCESS),
            OwnEvent::Seen { call, steps } => {
                self.see(*call, *steps);
                Ok(())
            }
            OwnEvent::Back { call, input } => self.come_back(alloc, *call, input),
            OwnEvent::Out { .. } | OwnEvent::Limited => Ok(()),
        }
    }
}
