ghost use Rattle.std.specs.Prelude.{◌≡◌, IfOk, find};
ghost use Rattle.std.specs.Option.{option_copied, option_map};
ghost use Rattle.std.specs.Str.{bytes_eq};
ghost use Rattle.kernel_model.specs.Application.{flags_of, pages_in, uuid_of};
ghost use Rattle.kernel_model.specs.Instances as instances;
ghost use Rattle.kernel_model.specs.Instances.{is_multi_session, is_single, keeps_alive};
ghost use Rattle.kernel_state.specs.Setup.{application_of, booted_of_setup};

use crate::shared_app::SharedApp;
use crate::terms::Terms;
use base::{NoMemory, Sequence};
use native_tas::NativeApp;
use tee_storage::Key;
use uuid::Uuid;

/// What a core was booted with, and on which terms. No call changes it.
#[derive(Drop)]
pub struct Setup {
    /// How many processors, thread slots and frames there are.
    pub cpus: u8,
    pub threads: u8,
    pub frames: u16,
    /// The applications of the boot.
    pub apps: Sequence<SharedApp>,
    /// The key of the tags of object files.
    pub key: Key,
    /// The applications that are built in.
    pub natives: Sequence<NativeApp>,
    /// What becomes of its events, and how much its entries may read.
    pub terms: Terms,
}

/// An application that a core was booted with.
#[derive(Drop)]
pub enum Application {
    /// One of the boot.
    OfImage(SharedApp),
    BuiltIn(NativeApp),
}

impl Setup {
    /// The application of a UUID, if there is one.
    #[tactic(auto, using(crate::proofs::Applications::app_built_in))]
    pub fn application(&self, uuid: &Uuid) -> Result<Option<Application>, NoMemory>
        ensures { IfOk result (λ app. instances.app_of (booted_of_setup self.now) uuid.now ≡ option_map application_of app) }
    {
        if let Some(app) = self.of_boot(uuid) {
            return Ok(Some(Application::OfImage(app.share()?)));
        }
        match self.built_in(uuid) {
            Some(app) => Ok(Some(Application::BuiltIn(*app))),
            None => Ok(None),
        }
    }

    /// That of the boot.
    fn of_boot(&self, uuid: &Uuid) -> Option<&SharedApp>
        ensures { option_copied result ≡ find (λ app. bytes_eq app.uuid uuid.now) self.now.apps }
    {
        self.apps.as_slice().iter().find(|app| app.uuid == *uuid)
    }

    /// The one that is built in.
    fn built_in(&self, uuid: &Uuid) -> Option<&NativeApp>
        ensures { option_copied result ≡ find (λ app. bytes_eq app.uuid uuid.now) self.now.natives }
    {
        self.natives.as_slice().iter().find(|app| app.uuid == *uuid)
    }
}

impl Application {
    /// The same application, for a call of it.
    pub fn share(&self) -> Result<Application, NoMemory>
        ensures { IfOk result (λ shared. application_of shared ≡ application_of self.now) }
    {
        match self {
            Application::OfImage(app) => Ok(Application::OfImage(app.share()?)),
            Application::BuiltIn(native) => Ok(Application::BuiltIn(*native)),
        }
    }

    /// The UUID that opens name it by.
    pub fn uuid(&self) -> Uuid
        ensures { result ≡ uuid_of (application_of self.now) }
    {
        match self {
            Application::OfImage(shared) => shared.uuid,
            Application::BuiltIn(native) => native.uuid,
        }
    }

    /// How many pages an instance has.
    pub fn pages(&self) -> u32
        ensures { result ≡ pages_in (application_of self.now) }
    {
        match self {
            Application::OfImage(shared) => shared.image.pages,
            Application::BuiltIn(_) => 0,
        }
    }

    /// Its instance flags. Each session of one that is built in has an instance of its own.
    pub fn flags(&self) -> u32
        ensures { result ≡ flags_of (application_of self.now) }
    {
        match self {
            Application::OfImage(shared) => shared.image.flags,
            Application::BuiltIn(_) => 0,
        }
    }

    /// All its sessions share one instance.
    pub fn is_single(&self) -> bool
        ensures { result ≡ is_single (application_of self.now) }
    {
        self.flags() >> 2 & 1 == 1
    }

    /// Several sessions may be open on the shared instance.
    pub fn is_multi_session(&self) -> bool
        ensures { result ≡ is_multi_session (application_of self.now) }
    {
        self.flags() >> 3 & 1 == 1
    }

    /// The shared instance outlives its last session.
    pub fn keeps_alive(&self) -> bool
        ensures { result ≡ keeps_alive (application_of self.now) }
    {
        self.is_single() && self.flags() >> 4 & 1 == 1
    }
}
