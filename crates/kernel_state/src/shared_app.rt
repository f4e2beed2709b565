ghost use Rattle.std.specs.Prelude.{◌≡◌, IfOk};
ghost use Rattle.kernel_state.specs.Setup.{app_of};

use base::NoMemory;
use std::alloc::Global;
use std::sync::Arc;
use ta_isa::Image;
use uuid::Uuid;

/// An application of the boot, whose image its calls share.
#[derive(Drop)]
pub struct SharedApp {
    pub uuid: Uuid,
    pub image: Arc<Image, Global>,
}

impl SharedApp {
    /// The same application, for a call of it.
    pub fn share(&self) -> Result<SharedApp, NoMemory>
        ensures { IfOk result (λ shared. app_of shared ≡ app_of self.now) }
    {
        Ok(SharedApp {
            uuid: self.uuid,
            image: Arc::clone(&self.image)?,
        })
    }
}
