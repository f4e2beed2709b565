//! Runs the code of an application's invoke, and tells why it stopped.

ghost use Rattle.std.specs.Prelude.{◌≡◌, None, IfOk};
ghost use Rattle.ta_isa.specs.Spelling.{IsValid};

use crate::number;
use anyhow::{Context, Error, Result};
use std::alloc::{AllocError, Global};
use std::fmt::Write;
use ta_isa::{Image, decode_image};
use ta_params::{Buf, CopiedParams, GpParam, Login, Way};
use ta_step::{Machine, Plain, Stop, TaMemory};

/// The bytes of one page.
const PAGE_BYTES: u32 = 4096;

/// The entry point of an invoke.
const INVOKE: u8 = 2;

/// The grants that a case has at most.
const MOST_GRANTS: u32 = 8;

/// The image that these hexadecimal digits are.
fn image_of(alloc: Global, digits: &str) -> Result<Image>
    ensures { IfOk result IsValid }
{
    let bytes = hex::decode(alloc, digits)?;
    decode_image(alloc, bytes.as_slice()).context("reading an image")
}

/// A page whose byte 1 is 2.
fn page(alloc: Global) -> Result<Plain> {
    let mut memory = Plain::new(alloc, PAGE_BYTES)?;
    memory.store(1, 2);
    Ok(memory)
}

/// The machine of an invoke of this function, with context 0.
fn invoked(image: &Image, memory: Plain, params: CopiedParams, func: u32) -> Machine<Plain>
    ensures { result.asked ≡ None }
{
    let login = Login {
        client: [7; 16],
        kind: 4,
    };
    let first = [func, params.type_word(), 0];
    Machine::start(image, memory, params, login, INVOKE, first)
}

/// Runs the image's invoke with no parameters: how it stopped after how many steps.
fn only_stop(image: &Image, memory: Plain, steps: u32) -> (Stop, u32)
    requires { IsValid image.now }
{
    let params = CopiedParams {
        p0: GpParam::Empty,
        p1: GpParam::Empty,
        p2: GpParam::Empty,
        p3: GpParam::Empty,
    };
    invoked(image, memory, params, 0).run(image, steps)
}

/// The parameters of a case: two numbers that come in and go out, twenty zeros that do, and two numbers that come in.
fn case_params(alloc: Global) -> Result<CopiedParams, AllocError> {
    let zeros = vec![in alloc; 0; 20]?;
    Ok(CopiedParams {
        p0: GpParam::Value {
            way: Way::Inout,
            a: 5,
            b: 7,
        },
        p1: GpParam::Memref {
            way: Way::Inout,
            buf: Buf::of(zeros),
            size: 20,
        },
        p2: GpParam::Value {
            way: Way::In,
            a: 5,
            b: 7,
        },
        p3: GpParam::Empty,
    })
}

/// Runs to the next stop, answers what was asked for there, and says how it stopped after how many steps.
fn next_stop(machine: &mut Machine<Plain>, image: &Image, steps: u32) -> (Stop, u32)
    requires valid { IsValid image.now }
    requires unasked { machine.old.asked ≡ None }
    ensures { machine.new.asked ≡ None }
{
    let (stop, used) = machine.run(image, steps);
    if machine.asked().is_some() {
        machine.answer(7, 0x200, 0x100);
    }
    (stop, used)
}

/// Runs a case to its end, or to its last grant, and tells its stops.
fn tell_stops(
    told: &mut String,
    machine: &mut Machine<Plain>,
    image: &Image,
    steps: u32,
) -> Result<(), AllocError>
    requires valid { IsValid image.now }
    requires unasked { machine.old.asked ≡ None }
{
    'grants: for _ in 0..MOST_GRANTS {
        let (stop, used) = next_stop(machine, image, steps);
        write!(told, "{stop:?} after {used}")?;
        if matches!(stop, Stop::Ended { .. } | Stop::Panicked(_)) {
            break 'grants;
        }
        told.push_str(", ")?;
    }
    Ok(())
}

/// Tells what a case leaves of its first two parameters.
fn tell_left(told: &mut String, params: &CopiedParams) -> Result<(), AllocError> {
    write!(told, "; {:?}; {:?}", params.p0, params.p1)
}

/// Runs a case, and tells its stops and what it leaves.
fn tell_run(
    told: &mut String,
    mut machine: Machine<Plain>,
    image: &Image,
    steps: u32,
) -> Result<(), AllocError>
    requires valid { IsValid image.now }
    requires unasked { machine.asked ≡ None }
{
    tell_stops(told, &mut machine, image, steps)?;
    tell_left(told, &machine.finish().1)
}

/// Invokes a function of an image, cancelled or not, by grants of so many steps, and tells how that went.
fn tell_invoke(
    alloc: Global,
    told: &mut String,
    image: &Image,
    func: u32,
    steps: u32,
    is_cancelled: bool,
) -> Result<()>
    requires { IsValid image.now }
{
    let memory = page(alloc)?;
    let params = case_params(alloc)?;
    let mut machine = invoked(image, memory, params, func);
    if is_cancelled {
        machine.see_cancel();
    }
    Ok(tell_run(told, machine, image, steps)?)
}

/// Tells the case of five words: its name, an image, the function to invoke, how many steps a grant has, and `cancelled`
/// where the call is.
fn tell_case(alloc: Global, told: &mut String, words: &[&str]) -> Result<()> {
    let [name, image, func, steps, call] = words else {
        return Err(Error::msg("a case has five words"));
    };
    write!(told, "{name}: ")?;
    let (func, steps) = (number(func)?, number(steps)?);
    let image = image_of(alloc, image)?;
    tell_invoke(alloc, told, &image, func, steps, *call == "cancelled")
}

/// What the case of a row tells.
pub(crate) fn told(alloc: Global, row: &str) -> Result<String> {
    let words: Vec<&str> = row.split(' ').collect(alloc)?;
    let mut told = String::new(alloc);
    tell_case(alloc, &mut told, words.as_slice())?;
    Ok(told)
}

/// How an image's invoke stopped in one grant of so many steps.
pub(crate) fn stop_told(alloc: Global, image: &str, steps: &str) -> Result<String> {
    let steps = number(steps)?;
    let image = image_of(alloc, image)?;
    let (stop, used) = only_stop(&image, page(alloc)?, steps);
    format!(in alloc; "{stop:?} after {used}").context("telling how it stopped")
}
