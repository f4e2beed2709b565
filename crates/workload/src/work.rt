//! The made trace.

ghost use Rattle.std.specs.Prelude.{◌≡◌, ◌≤◌, ◌^◌, IfOk};
ghost use Rattle.workload.specs.Work.{add_image, add_uuid, made_boot, made_trace, next};

use crate::calls::push_items;
use base::{NoMemory, Sequence};
use std::alloc::Global;
use ta_isa::{App, Boot, Image, Instr};
use trace_text::Trace;
use uuid::Uuid;

/// The calls that a made trace may have.
pub const MOST_CALLS: u32 = 65_536;

/// The number after a number: a linear congruential generator of 64 bits.
fn next(x: u64) -> u64
    ensures { result ≡ next x }
{
    x.wrapping_mul(6_364_136_223_846_793_005)
        .wrapping_add(1_442_695_040_888_963_407)
}

fn instr(op: u8, d: u8, a: u8, b: u8, imm: u32) -> Instr
    ensures { result ≡ record { op = op; d = d; a = a; b = b; imm = imm } }
{
    Instr { op, d, a, b, imm }
}

/// The image whose invoke adds the two numbers of its first parameter.
#[tactic(auto, unfolding(crate::specs::Work::add_image))]
fn add_image(alloc: Global) -> Result<Image, NoMemory>
    ensures { IfOk result (λ image. image ≡ add_image) }
{
    let code = [
        instr(0x18, 0, 0, 0, 0),
        instr(0x01, 0, 0, 0, 0),
        instr(0x18, 0, 0, 0, 3),
        instr(0x03, 1, 0, 1, 0),
        instr(0x01, 0, 0, 0, 0),
        instr(0x18, 0, 0, 0, 4),
        instr(0x18, 0, 0, 0, 0),
    ];
    Ok(Image {
        flags: 0,
        pages: 1,
        entries: [0, 0, 1, 0, 0],
        code: Sequence::of(Vec::from_array(alloc, code)?),
    })
}

/// Its UUID.
#[tactic(auto, unfolding(crate::specs::Work::add_uuid))]
fn add_uuid() -> Uuid
    ensures { result ≡ add_uuid }
{
    Uuid::from_bytes([
        0x11, 0x11, 0x11, 0x11, 0x22, 0x22, 0x33, 0x33, 0x44, 0x44, 0x55, 0x55, 0x55, 0x55, 0x55,
        0x55,
    ])
}

/// What a core is booted with for a made trace.
#[tactic(auto, unfolding(crate::specs::Work::made_boot))]
fn made_boot(alloc: Global) -> Result<Boot, NoMemory>
    ensures { IfOk result (λ boot. boot ≡ made_boot) }
{
    let app = App {
        uuid: add_uuid(),
        image: add_image(alloc)?,
    };
    let mut apps = Vec::new(alloc);
    apps.push(app)?;
    Ok(Boot {
        cpus: 4,
        threads: 4,
        frames: 256,
        apps: Sequence::of(apps),
        key: [0; 32],
    })
}

/// The trace that a seed makes, with so many calls, at most [`MOST_CALLS`]: each with the argument that it needs written in
/// front of it.
pub fn make_work(alloc: Global, seed: u64, count: u32) -> Result<Trace, NoMemory>
    requires { count ≤ 65536 }
    ensures { IfOk result (λ trace. trace ≡ made_trace seed count) }
{
    let boot = made_boot(alloc)?;
    let mut items = Vec::new(alloc);
    let mut x = seed;
    let mut left = count;
    while left > 0 {
        x = next(x);
        push_items(alloc, &mut items, x)?;
        left -= 1;
    }
    Ok(Trace {
        boot: Some(boot),
        fills: Sequence::of(Vec::new(alloc)),
        items: Sequence::of(items),
    })
}
