//! The instance of a session, and how its open makes it.
ghost use Rattle.std.specs.Prelude.{◌≡◌, IfOk};
ghost use Rattle.begin_call.specs.Begins.{IsValidApp};
ghost use Rattle.kernel_model.specs.Application.{pages_in, uuid_of};
ghost use Rattle.kernel_model.specs.Instances.{fresh_memory};
ghost use Rattle.kernel_state.specs.Calls.{bytes_of};
ghost use Rattle.kernel_state.specs.Setup.{application_of};
ghost use Rattle.own_model.specs.Solo.{made};
ghost use Rattle.rpc_cont.specs.Conts.{kept_memory};
ghost use Rattle.solo.specs.Standing.{instance_of};

use base::NoMemory;
use kernel_state::Application;
use std::alloc::Global;
use ta_step::Plain;
use tee_storage::Handles;

/// The bytes of a page.
const PAGE_BYTES: u32 = 4096;

/// The session's instance.
#[derive(Drop)]
pub struct KeptInstance {
    /// One of its entry points panicked.
    pub dead: bool,
    /// The number of the call that holds it.
    pub holder: Option<u32>,
    /// Its memory and its open objects, while no call holds it.
    pub memory: Option<Plain>,
    pub objects: Handles,
}

/// The memory of a new instance: as many zeros as its pages have bytes. A built-in application has none.
fn fresh_memory(alloc: Global, app: &Application) -> Result<Option<Plain>, NoMemory>
    requires { IsValidApp (application_of app.now) }
    ensures { IfOk result (λ memory. kept_memory bytes_of memory ≡ fresh_memory (pages_in (application_of app.now))) }
{
    match app {
        Application::OfImage(shared) => {
            let len = shared.image.pages * PAGE_BYTES;
            Ok(Some(Plain::new(alloc, len)?))
        }
        Application::BuiltIn(_) => Ok(None),
    }
}

/// A new instance of the application.
pub fn made_instance(alloc: Global, app: &Application) -> Result<KeptInstance, NoMemory>
    requires { IsValidApp (application_of app.now) }
    ensures { IfOk result (λ instance. instance_of (uuid_of (application_of app.now)) instance
        ≡ made (application_of app.now)) }
{
    Ok(KeptInstance {
        dead: false,
        holder: None,
        memory: fresh_memory(alloc, app)?,
        objects: Handles::new(),
    })
}
