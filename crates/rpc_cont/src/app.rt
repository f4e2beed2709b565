use native_tas::NativeApp;
use std::alloc::Global;
use std::sync::Arc;
use ta_isa::Image;
use uuid::Uuid;

/// The application of a call.
#[derive(Drop)]
pub enum ContApp {
    /// That of an image, with its UUID.
    Image {
        uuid: Uuid,
        image: Arc<Image, Global>,
    },
    /// One that is built in.
    Native(NativeApp),
    /// That of a dead instance, with its UUID: nothing runs.
    Dead {
        uuid: Uuid,
    },
}
