//! The application of a UUID, in a boot or beside it.
ghost use Rattle.std.specs.Prelude.{◌≡◌, IfOk, find};
ghost use Rattle.std.specs.Option.{option_copied, option_map};
ghost use Rattle.std.specs.Str.{bytes_eq};
ghost use Rattle.kernel_model.specs.Application.{OfImage, booted};
ghost use Rattle.kernel_model.specs.Instances.{app_of};
ghost use Rattle.kernel_state.specs.Setup.{application_of};
ghost use Rattle.native_tas.specs.Table.{entries};

use base::NoMemory;
use kernel_state::{Application, SharedApp};
use native_tas::{NativeApp, Natives};
use std::alloc::Global;
use std::sync::Arc;
use ta_isa::{App, Boot};
use uuid::Uuid;

/// An application of the boot, with its image where calls can share it.
pub fn shared_app(alloc: Global, app: &App) -> Result<Application, NoMemory>
    ensures { IfOk result (λ shared. application_of shared ≡ OfImage app.now) }
{
    let image = Arc::new(alloc, app.image.clone()?)?;
    Ok(Application::OfImage(SharedApp {
        uuid: app.uuid,
        image,
    }))
}

/// The application of this UUID in the boot, if it has one.
pub fn of_boot<'a>(boot: &'a Boot, uuid: &Uuid) -> Option<&'a App>
    ensures { option_copied result ≡ find (λ app. bytes_eq app.uuid uuid.now) boot.now.apps }
{
    boot.apps.as_slice().iter().find(|app| app.uuid == *uuid)
}

/// The first of these that has a UUID.
fn of_natives<'a>(apps: &'a [NativeApp], uuid: &Uuid) -> Option<&'a NativeApp>
    ensures { option_copied result ≡ find (λ app. bytes_eq app.uuid uuid.now) apps.now }
{
    apps.iter().find(|app| app.uuid == *uuid)
}

/// The application of a UUID, in a boot or beside it.
pub(crate) fn application(
    alloc: Global,
    boot: &Boot,
    natives: &Natives,
    uuid: &Uuid,
) -> Result<Option<Application>, NoMemory>
    ensures { IfOk result (λ found. option_map application_of found
        ≡ app_of (booted boot.now (entries natives.now)) uuid.now) }
{
    if let Some(app) = of_boot(boot, uuid) {
        return Ok(Some(shared_app(alloc, app)?));
    }
    let natives = natives.apps(alloc)?;
    match of_natives(natives.as_slice(), uuid) {
        Some(native) => Ok(Some(Application::BuiltIn(*native))),
        None => Ok(None),
    }
}
