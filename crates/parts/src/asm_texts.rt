//! Texts of the assembler.

ghost use Rattle.ta_isa.specs.Spelling.{IsValid};

use crate::bytes_of;
use anyhow::{Result, bail};
use std::alloc::Global;
use ta_asm::{AsmFault, assemble, disassemble};
use ta_isa::{Image, encode_image};

/// The bytes that a text may have here.
const MOST_BYTES: usize = 1 << 25;

/// Whether a text is the canonical one of its image.
fn is_canonical(alloc: Global, text: &[u8], image: &Image) -> Result<bool>
    requires { IsValid image.now }
{
    let again = disassemble(alloc, image)?;
    Ok(again.as_slice() == text)
}

/// The bytes of an image, in hexadecimal.
fn digits_of(alloc: Global, image: &Image) -> Result<String>
    requires { IsValid image.now }
{
    let bytes = encode_image(alloc, image)?;
    Ok(hex::encode(alloc, bytes.as_slice())?)
}

/// The line that tells what a text of this image is.
fn image_line(alloc: Global, text: &[u8], image: &Image) -> Result<String>
    requires { IsValid image.now }
{
    let form = if is_canonical(alloc, text, image)? {
        "canonical"
    } else {
        "other"
    };
    let digits = digits_of(alloc, image)?;
    Ok(format!(in alloc; "{form} {digits}")?)
}

/// The line that tells of a fault.
fn fault_line(alloc: Global, fault: AsmFault) -> Result<String> {
    match fault {
        AsmFault::Memory => bail!("out of memory"),
        _ => Ok(format!(in alloc; "{fault}")?),
    }
}

/// Whether a text is canonical, and its image in hexadecimal digits, or its first fault.
pub(crate) fn told(alloc: Global, text: &[u8]) -> Result<String> {
    if text.len() > MOST_BYTES {
        bail!("the text is too long");
    }
    match assemble(alloc, text) {
        Ok(image) => image_line(alloc, text, &image),
        Err(fault) => fault_line(alloc, fault),
    }
}

/// The same of the text of these hexadecimal digits.
pub(crate) fn bytes_told(alloc: Global, digits: &str) -> Result<String> {
    told(alloc, bytes_of(alloc, digits)?.as_slice())
}
