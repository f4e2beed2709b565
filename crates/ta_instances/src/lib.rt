//! Which instances of trusted applications there are: of each its application, its memory and open objects,
//! and which call holds it.
//!
//! A call that holds an instance has its memory and open objects moved out to it, and gives them back at its
//! end. So an instance that is held has none here, and nor has the memory of one that is dead.
//!
//! It touches no RAM, no port and no thread.
//!
//! # What is proved
//!
//! Instances are a finite map from numbers; `find` gives the least number of a UUID; `hold` moves memory and open
//! objects out, `hold_into` these into those of a call, and an instance that is held keeps none here; the whole map,
//! the other entries included, is said after every call.
#![tactic(auto)]

mod examples;
mod instance;
mod instances;

pub use base::NoMemory;
pub use examples::worked_examples;
pub use frame_pool::Pages;
pub use instance::Instance;
pub use instances::{Instances, MAX_INSTANCES};
pub use tee_storage::Handles;
pub use uuid::Uuid;
