//! From bytes to an image.
ghost use Rattle.std.specs.Prelude.{◌≡◌, ◌+◌, ◌*◌, ◌<◌, ◌≤◌, length, position, nat_le, Option, Some, None, IfSome, IfOk, IfErr, OnOk, ◌⊎◌};
ghost use Rattle.std.specs.Option.{option_map};
ghost use Rattle.ta_isa.specs.Reading.{IsUnlessMemory, decoded, code_of, first_bad, header_fault, word_at};
ghost use Rattle.ta_isa.specs.Spelling.{IsValid, spelling};
ghost use Rattle.ta_isa.specs.Header.{header_of};

use crate::flags::are_allowed;
use crate::image::{HEADER_LEN, INSTRUCTION_LEN, Image, Instr, MAGIC, MAX_INSTRUCTIONS, MAX_PAGES};
use crate::image_fault::ImageFault;
use base::Sequence;
use byteorder::{ByteOrder, LittleEndian};
use std::alloc::Global;

/// What stands in front of the instructions.
struct Header {
    flags: u32,
    pages: u32,
    count: u32,
    entries: [u32; 5],
}

/// The word that stands at a place, which it passes nowhere.
#[tactic(auto, unfolding(crate::specs::Reading::word_at))]
fn word_at(bytes: &[u8], place: usize) -> u32
    requires { place + 4 ≤ length bytes.now }
    ensures { result ≡ word_at place bytes.now }
{
    LittleEndian::read_u32(&bytes[place..])
}

impl Header {
    fn read(bytes: &[u8]) -> Result<Header, ImageFault>
        ensures len { IfOk result (λ header. length bytes.now ≡ 36 + 8 * header.count) }
        ensures good { OnOk result (header_fault bytes.now ≡ None) }
        ensures read { IfOk result (λ header. header ≡ header_of bytes.now) }
        ensures bad { IfErr result (λ fault. header_fault bytes.now ≡ Some fault) }
    {
        if bytes.len() < HEADER_LEN || !bytes.starts_with(&MAGIC) {
            return Err(ImageFault::BadHeader(0));
        }
        let flags = word_at(bytes, 4);
        if !are_allowed(flags) {
            return Err(ImageFault::BadHeader(1));
        }
        let pages = word_at(bytes, 8);
        if pages == 0 || pages > MAX_PAGES {
            return Err(ImageFault::BadHeader(2));
        }
        let count = word_at(bytes, 12);
        if count > MAX_INSTRUCTIONS {
            return Err(ImageFault::TooLarge);
        }
        if count == 0 || bytes.len() != HEADER_LEN + INSTRUCTION_LEN * count as usize {
            return Err(ImageFault::BadHeader(3));
        }
        let entries = [
            word_at(bytes, 16),
            word_at(bytes, 20),
            word_at(bytes, 24),
            word_at(bytes, 28),
            word_at(bytes, 32),
        ];
        if let Some(number) = first_bad_entry(&entries, count) {
            return Err(ImageFault::BadEntry(number as u8));
        }
        Ok(Header {
            flags,
            pages,
            count,
            entries,
        })
    }
}

/// The first entry point that is not below the count.
fn first_bad_entry(entries: &[u32; 5], count: u32) -> Option<usize>
    ensures first { result ≡ position (nat_le count) entries.now }
    ensures below { IfSome result (λ number. number < 5) }
{
    entries.iter().position(|entry| count <= *entry)
}

/// The instructions behind the header, or the first bad one.
fn read_code(alloc: Global, bytes: &[u8], count: u32) -> Result<Vec<Instr>, ImageFault>
    requires { length bytes.now ≡ 36 + 8 * count }
    ensures good { OnOk result (first_bad count (code_of bytes.now) ≡ None) }
    ensures read { IfOk result (λ code. code.items ≡ code_of bytes.now) }
    ensures bad { IfErr result (λ fault. (fault ≡ ImageFault.Memory)
        ⊎ (option_map ImageFault.BadOp (first_bad count (code_of bytes.now)) ≡ Some fault)) }
{
    let mut code = Vec::with_capacity(alloc, count as usize)?;
    for number in 0..count {
        let start = HEADER_LEN + INSTRUCTION_LEN * number as usize;
        let instr = Instr::read(&bytes[start..]);
        if !instr.is_valid(count) {
            return Err(ImageFault::BadOp(number));
        }
        code.push(instr)?;
    }
    Ok(code)
}

fn decode(alloc: Global, bytes: &[u8]) -> Result<Image, ImageFault>
    ensures { IsUnlessMemory result (decoded bytes.now) }
{
    let Header {
        flags,
        pages,
        count,
        entries,
    } = Header::read(bytes)?;
    let code = read_code(alloc, bytes, count)?;
    Ok(Image {
        flags,
        pages,
        entries,
        code: Sequence::of(code),
    })
}

/// The image that the bytes spell, all of the bytes; or their first fault, in the order of
/// [`ImageFault`]; or want of memory.
pub fn decode_image(alloc: Global, bytes: &[u8]) -> Result<Image, ImageFault>
    // What is read is valid, and spelled so.
    ensures valid { IfOk result IsValid }
    ensures spelled { IfOk result (λ image. bytes.now ≡ spelling image) }
    // What is valid and spelled so is read.
    ensures only { (image : Image) → IsValid image → bytes.now ≡ spelling image
        → IsUnlessMemory result (Ok image) }
    // Which fault it is.
    ensures exact { IsUnlessMemory result (decoded bytes.now) }
{
    decode(alloc, bytes)
}
