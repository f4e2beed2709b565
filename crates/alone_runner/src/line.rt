//! The line of an image.

ghost use Rattle.std.specs.Prelude.{◌≡◌, IfOk};
ghost use Rattle.ta_isa.specs.Spelling.{IsValid};
ghost use Rattle.alone_runner.specs.Line.{image_line};

use answer_lines::push_hex;
use base::NoMemory;
use std::alloc::Global;
use ta_isa::{Image, encode_image};

/// The line of an image: its bytes in hexadecimal.
pub fn image_line(alloc: Global, image: &Image) -> Result<Vec<u8>, NoMemory>
    requires { IsValid image.now }
    ensures { IfOk result (λ line. line.items ≡ image_line image.now) }
{
    let bytes = encode_image(alloc, image)?;
    let mut line = Vec::new(alloc);
    push_hex(alloc, &mut line, bytes.as_slice())?;
    Ok(line)
}
