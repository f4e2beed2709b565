ghost use Rattle.std.specs.Prelude.{◌≡◌, ◌≤◌, IfOk, List, length};
ghost use Rattle.kernel_model.specs.Argument.{opening};
ghost use Rattle.kernel_model.specs.NewCall.{has_pages, is_taken, open_session, shares_one};
ghost use Rattle.kernel_state.specs.Setup.{application_of};
ghost use Rattle.kernel_state.specs.Tables.{HasFreePages};
ghost use Rattle.new_calls.specs.Applying.{CanApply};
ghost use Rattle.new_calls.specs.Argument.{opening_of};
ghost use Rattle.new_calls.specs.Deciding.{Decides, HaveSaid, call_of};
ghost use Rattle.new_calls.specs.Faults.{open_fault};
ghost use Rattle.ns_ram.specs.declared.read.Read.{Read as AnyRead};

use crate::call::CallAtEntry;
use crate::halt::{Halt, Settled};
use crate::plan::Plan;
use crate::wanted::{Wanted, opening};
use begin_call::{has_pages_for, shared_instance};
use kernel_state::Application;
use ns_ram::{Lane, Reads};
use std::alloc::Global;
use ta_params::codes::{
    TEE_ERROR_BAD_PARAMETERS, TEE_ERROR_BUSY, TEE_ERROR_ITEM_NOT_FOUND, TEE_ERROR_OUT_OF_MEMORY,
    TEE_ERROR_TARGET_DEAD,
};

impl CallAtEntry<'_> {
    /// The tests of an open, and what it begins.
    pub fn open_session(&self, alloc: Global, lane: &Lane, reads: &mut Reads) -> Result<Plan, Halt>
        requires { HasFreePages self.now.setup.now self.now.tables.now }
        ensures decides { Decides self.now open_session lane.now reads.old reads.new result }
        ensures can_apply { IfOk result (CanApply (call_of self.now)) }
    {
        let params = self.parameters(alloc, lane, reads)?;
        let Some(wanted) = opening(params.as_slice()) else {
            return Err(Halt::Settled(Settled::Call(TEE_ERROR_BAD_PARAMETERS)));
        };
        self.open_wanted(alloc, lane, &wanted, reads)
    }

    /// The tests of an open behind those of its parameters, which say this, and what it begins.
    fn open_wanted(
        &self,
        alloc: Global,
        lane: &Lane,
        wanted: &Wanted<'_>,
        reads: &mut Reads,
    ) -> Result<Plan, Halt>
        requires pages { HasFreePages self.now.setup.now self.now.tables.now }
        requires few { length wanted.now.params.now ≤ 4 }
        ensures decides { (before : List AnyRead)
            → HaveSaid (call_of self.now) opening (opening_of wanted.now) lane.now before reads.old
            → Decides self.now open_session lane.now before reads.new result }
        ensures can_apply { IfOk result (CanApply (call_of self.now)) }
    {
        let Some(app) = self.setup.application(&wanted.uuid)? else {
            return Err(Halt::Settled(Settled::Call(TEE_ERROR_ITEM_NOT_FOUND)));
        };
        if let Some(code) = self.open_fault(&app) {
            return Err(Halt::Settled(Settled::Open(app, wanted.login, code)));
        }
        let Some(copies) = self.copied_params(alloc, lane, wanted.params, 2, reads)? else {
            let login = wanted.login;
            return Err(Halt::Settled(Settled::Open(app, login, TEE_ERROR_BAD_PARAMETERS)));
        };
        Ok(Plan::Opens {
            app,
            login: wanted.login,
            copies,
        })
    }

    /// The code of the first test on the application that fails.
    fn open_fault(&self, app: &Application) -> Option<u32>
        requires { HasFreePages self.now.setup.now self.now.tables.now }
        ensures { result ≡ open_fault (call_of self.now) (application_of app.now) }
    {
        if self.shares_dead(app) {
            return Some(TEE_ERROR_TARGET_DEAD);
        }
        if self.is_taken(app) {
            return Some(TEE_ERROR_BUSY);
        }
        if !self.tables.sessions.has_room() {
            return Some(TEE_ERROR_OUT_OF_MEMORY);
        }
        if !self.has_pages(app) {
            return Some(TEE_ERROR_OUT_OF_MEMORY);
        }
        None
    }

    /// The open shares a dead instance.
    fn shares_dead(&self, app: &Application) -> bool
        ensures { result ≡ shares_one (call_of self.now) (application_of app.now) (λ kept. kept.1.dead) }
    {
        match shared_instance(self.tables, app) {
            Some(shared) => shared.dead,
            None => false,
        }
    }

    /// The application has one instance and one session at a time, and that session is there.
    fn is_taken(&self, app: &Application) -> bool
        ensures { result ≡ is_taken (call_of self.now) (application_of app.now) }
    {
        if app.is_multi_session() {
            return false;
        }
        match shared_instance(self.tables, app) {
            Some(shared) => self.tables.sessions.users(shared.number).all > 0,
            None => false,
        }
    }

    /// There are pages for the instance, where one is to be made.
    fn has_pages(&self, app: &Application) -> bool
        requires { HasFreePages self.now.setup.now self.now.tables.now }
        ensures { result ≡ has_pages (call_of self.now) (application_of app.now) }
    {
        shared_instance(self.tables, app).is_some() || has_pages_for(self.setup, self.tables, app)
    }
}
