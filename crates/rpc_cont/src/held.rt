use native_tas::NativeApp;
use std::alloc::Global;
use std::sync::Arc;
use ta_isa::Image;
use ta_step::TaMemory;
use uuid::Uuid;

/// The instance that a call begins on.
#[derive(Drop)]
pub enum Held<M: TaMemory> {
    /// One of an image, with the application's UUID and the instance's memory.
    Image {
        uuid: Uuid,
        image: Arc<Image, Global>,
        memory: M,
    },
    /// One of a built-in application.
    Native(NativeApp),
    /// A dead one, of the application of this UUID.
    Dead {
        uuid: Uuid,
    },
}
