//! What a trusted application is called with and answers with: four parameters copied out of shared
//! memory, the login of the client, result codes, and the calls on its storage objects.
//!
//! Names and numbers are those of the GlobalPlatform TEE Internal Core API, unless a type says that it is
//! this project's own.
//!
//! It touches no RAM, no port and no thread.
//!
//! # What is proved
//!
//! `type_word` packs the four types, the first lowest; a buffer is the list of its bytes; a copy of a buffer or of
//! parameters equals them; each code and origin has the number of the API (`codes_of_the_api`).
#![tactic(auto)]

mod buf;
mod call_result;
pub mod codes;
mod copied_params;
mod examples;
mod login;
mod object_call;

pub use buf::Buf;
pub use call_result::CallResult;
pub use copied_params::{CopiedParams, GpParam, Way};
pub use examples::{codes_of_the_api, worked_examples};
pub use login::Login;
pub use object_call::ObjectCall;
