//! Whether two sessions, or two groups, are of one application.
ghost use Rattle.std.specs.Prelude.{◌≡◌, ◌↔◌, IsTrue};
ghost use Rattle.std.specs.Option.{option_and_then, option_map};
ghost use Rattle.compare_model.specs.Comparing.{if_shared, unless_shared};
ghost use Rattle.kernel_state.specs.Setup.{app_of, application_of};

use kernel_state::{Application, SharedApp};
use native_tas::NativeApp;
use ta_isa::{Image, Instr};

/// The application, where each of its sessions has an instance of its own.
pub(crate) fn unless_shared(app: Option<Application>) -> Option<Application>
    ensures { option_and_then unless_shared (option_map application_of app) ≡ option_map application_of result }
{
    let app = app?;
    if app.is_single() { None } else { Some(app) }
}

/// The application, where its sessions share an instance.
pub(crate) fn if_shared(app: Option<Application>) -> Option<Application>
    ensures { option_and_then if_shared (option_map application_of app) ≡ option_map application_of result }
{
    let app = app?;
    if app.is_single() { Some(app) } else { None }
}

/// Both instructions are the same.
fn is_same_instruction(one: &Instr, other: &Instr) -> bool
    ensures { IsTrue result ↔ (one.now ≡ other.now) }
{
    one == other
}

/// Both have the same instructions.
fn is_same_code(one: &[Instr], other: &[Instr]) -> bool
    ensures { IsTrue result ↔ (one.now ≡ other.now) }
{
    if one.len() != other.len() {
        return false;
    }
    for (place, instruction) in one.iter().enumerate() {
        if !is_same_instruction(instruction, &other[place]) {
            return false;
        }
    }
    true
}

/// Both images are the same.
fn is_same_image(one: &Image, other: &Image) -> bool
    ensures { IsTrue result ↔ (one.now ≡ other.now) }
{
    one.flags == other.flags
        && one.pages == other.pages
        && one.entries == other.entries
        && is_same_code(one.code.as_slice(), other.code.as_slice())
}

/// Both are the same application of a boot.
fn is_same_shared(one: &SharedApp, other: &SharedApp) -> bool
    ensures { IsTrue result ↔ (app_of one.now ≡ app_of other.now) }
{
    one.uuid == other.uuid && is_same_image(&one.image, &other.image)
}

/// Both are the same application that is built in.
fn is_same_native(one: &NativeApp, other: &NativeApp) -> bool
    ensures { IsTrue result ↔ (one.now ≡ other.now) }
{
    one == other
}

/// Both are the same application: UUID and image, or what is built in.
pub(crate) fn is_same_app(one: &Application, other: &Application) -> bool
    ensures { IsTrue result ↔ (application_of one.now ≡ application_of other.now) }
{
    match (one, other) {
        (Application::OfImage(app), Application::OfImage(other_app)) => {
            is_same_shared(app, other_app)
        }
        (Application::BuiltIn(app), Application::BuiltIn(other_app)) => {
            is_same_native(app, other_app)
        }
        _ => false,
    }
}
