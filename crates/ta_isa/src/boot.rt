ghost use Rattle.std.specs.Prelude.{◌≡◌};

use crate::image::Image;
use base::Sequence;
use std::alloc::AllocError;
use uuid::Uuid;

/// A trusted application that is there from the start.
#[derive(Debug, Drop)]
pub struct App {
    pub uuid: Uuid,
    pub image: Image,
}

impl Clone for App {
    ghost is_clone = { λ app copy. copy ≡ app };

    fn clone(&self) -> Result<App, AllocError> {
        Ok(App {
            uuid: self.uuid,
            image: self.image.clone()?,
        })
    }
}

/// What a core is booted with.
#[derive(Debug, Drop)]
pub struct Boot {
    /// The processors, 1 to 8.
    pub cpus: u8,
    /// The thread slots, 1 to 16.
    pub threads: u8,
    /// The page frames that instances share, 1 to 1024.
    pub frames: u16,
    /// The applications, at most 16, no two with one UUID.
    pub apps: Sequence<App>,
    /// The key of the tags of object files.
    pub key: [u8; 32],
}

impl Clone for Boot {
    ghost is_clone = { λ boot copy. copy ≡ boot };

    fn clone(&self) -> Result<Boot, AllocError> {
        Ok(Boot {
            cpus: self.cpus,
            threads: self.threads,
            frames: self.frames,
            apps: self.apps.clone()?,
            key: self.key,
        })
    }
}
