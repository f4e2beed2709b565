//! The limits of what a line or a record says.

ghost use Rattle.std.specs.Prelude.{◌≡◌, ◌∷◌, [], nat_lt};
ghost use Rattle.std.specs.List.{list_any};
ghost use Rattle.std.specs.Str.{bytes_eq};
ghost use Rattle.ta_isa.specs.Reading.{image_of};
ghost use Rattle.trace_text.specs.Judging.{Judged, booted};
ghost use Rattle.trace_text.specs.Limits.{is_image, is_known, is_within, lies_in_ram};

use crate::fault::{BadKind, LineFault};
use base::Sequence;
use ns_ram::in_ram;
use std::alloc::Global;
use ta_isa::{App, Boot, Image, decode_image};
use uuid::Uuid;

/// The most processors that there are.
pub const MAX_CPUS: usize = 8;

/// The applications that a trace may have in images.
pub const MAX_APPS: usize = 16;

/// The steps that an entry may be granted.
pub const MAX_STEPS: u32 = 1_000_000;

/// The bytes of a lane that an item may show.
pub const MAX_SHOWN: u32 = 4096;

/// The bytes of a key.
pub const KEY_BYTES: usize = 32;

/// What a boot says but for its applications and its key.
#[derive(Clone, Copy, Drop)]
pub struct Size {
    pub cpus: u8,
    pub threads: u8,
    pub frames: u16,
}

/// What a core is booted with. Without a key it is one of zeros.
pub fn boot_of(size: Option<Size>, apps: Vec<App>, key: Option<[u8; KEY_BYTES]>) -> Option<Boot>
    ensures { result ≡ booted size apps.items key }
{
    let Size {
        cpus,
        threads,
        frames,
    } = size?;
    Some(Boot {
        cpus,
        threads,
        frames,
        apps: Sequence::of(apps),
        key: key.unwrap_or([0; KEY_BYTES]),
    })
}

/// Whether a number lies within these limits.
pub fn is_within(least: u32, most: u32, number: u32) -> bool
    ensures { result ≡ is_within least most number }
{
    least <= number && number <= most
}

/// Whether a core of so many processors has the one of this number.
pub fn is_there(cpus: u8, cpu: u32) -> bool
    ensures { result ≡ nat_lt cpu cpus }
{
    cpu < u32::from(cpus)
}

/// Whether so many bytes at this address lie in RAM, all of them.
#[tactic(auto, unfolding(crate::specs::Limits::lies_in_ram))]
pub fn lies_in_ram(addr: u64, len: u64) -> bool
    ensures { result ≡ lies_in_ram addr len }
{
    in_ram(addr, len)
}

/// Whether this UUID is among these.
fn is_among(ids: &[Uuid], id: Uuid) -> bool
    ensures { result ≡ list_any (λ other. bytes_eq other id) ids.now }
{
    ids.iter().any(|other| *other == id)
}

/// Whether some application has this UUID, of those that are built in and those in images.
#[tactic(auto, unfolding(crate::specs::Limits::is_known))]
pub fn is_known(natives: &[Uuid], apps: &[Uuid], id: Uuid) -> bool
    ensures { result ≡ is_known natives.now apps.now id }
{
    is_among(apps, id) || is_among(natives, id)
}

/// The image of these bytes.
pub fn image_of(alloc: Global, image: &[u8]) -> Result<Image, LineFault>
    ensures { Judged (λ i. i) result ((BadKind.Image, is_image image.now) ∷ []) (image_of image.now) }
{
    match decode_image(alloc, image) {
        Ok(image) => Ok(image),
        Err(fault) => Err(LineFault::of_image(fault)),
    }
}
