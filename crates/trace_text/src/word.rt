//! Words of a line: the numbers that they write.

ghost use Rattle.std.specs.Prelude.{◌≡◌, ◌≤◌, ◌*◌, [], ◌∷◌, length, min};
ghost use Rattle.hex.specs.Hex.{decode_pairs};
ghost use Rattle.std.specs.Option.{option_map};
ghost use Rattle.trace_text.specs.Reading.{Decodes, has_leading_zero, decimal_at, hexadecimal_at};
ghost use Rattle.trace_text.specs.Forms.{is_decimal, decimal, is_hexadecimal, hexadecimal, is_register, register, is_uuid, uuid, is_hex, bytes};
ghost use Rattle.trace_text.specs.Judging.{IsSaid, Judged, Reads};

use crate::digit::{byte_of, digit_of};
use crate::fault::{BadKind, LineFault};
use crate::item::Reg;
use std::alloc::Global;
use uuid::Uuid;

/// The length of a UUID in the hyphenated form, 8-4-4-4-12.
const HYPHENATED_LEN: usize = 36;

/// Whether a word begins with a zero that is not all of it.
fn has_leading_zero(word: &[u8]) -> bool
    ensures { result ≡ has_leading_zero word.now }
{
    matches!(word, [b'0', _, ..])
}

/// The number that decimal digits write, without a sign and without a leading zero but in `0`. `u32::MAX` stands
/// for all numbers above it.
#[tactic(auto, unfolding(crate::specs::Reading::decimal_at))]
fn decimal(word: &[u8]) -> Option<u32>
    ensures { result ≡ option_map (min u32.MAX) (decimal_at word.now) }
{
    if word.is_empty() || has_leading_zero(word) {
        return None;
    }
    let mut number = 0u32;
    for byte in word {
        let digit = digit_of(*byte);
        if digit >= 10 {
            return None;
        }
        number = number.saturating_mul(10).saturating_add(u32::from(digit));
    }
    Some(number)
}

/// The number that decimal digits write, where `u32::MAX` stands for all numbers above it.
#[tactic(auto, unfolding(crate::specs::Forms::is_decimal, crate::specs::Forms::decimal, crate::specs::Reading::decimal_at))]
pub fn number(word: &[u8]) -> Result<u32, LineFault>
    ensures { IsSaid result BadKind.Number (is_decimal word.now) (min u32.MAX (decimal word.now)) }
{
    decimal(word).ok_or(LineFault::Broken(BadKind::Number))
}

/// The number that 1 to `most` hexadecimal digits write, of either case.
#[tactic(auto, unfolding(crate::specs::Reading::hexadecimal_at))]
fn hexadecimal(word: &[u8], most: usize) -> Option<u64>
    requires { most ≤ 16 }
    ensures { result ≡ hexadecimal_at most word.now }
{
    if word.is_empty() {
        return None;
    }
    if word.len() > most {
        return None;
    }
    let mut number = 0u64;
    for byte in word {
        let digit = digit_of(*byte);
        if digit >= 16 {
            return None;
        }
        number = number * 16 + u64::from(digit);
    }
    Some(number)
}

/// The number that 1 to 8 hexadecimal digits write, of either case.
pub fn short_hexadecimal(word: &[u8]) -> Option<u32>
    ensures { result ≡ hexadecimal_at 8 word.now }
{
    let number = hexadecimal(word, 8)?;
    Some(number as u32)
}

/// The address of a word: 1 to 16 hexadecimal digits.
#[tactic(auto, unfolding(crate::specs::Forms::is_hexadecimal, crate::specs::Forms::hexadecimal, crate::specs::Reading::hexadecimal_at))]
pub fn address(word: &[u8]) -> Result<u64, LineFault>
    ensures { IsSaid result BadKind.Number (is_hexadecimal 16 word.now) (hexadecimal word.now) }
{
    hexadecimal(word, 16).ok_or(LineFault::Broken(BadKind::Number))
}

/// The register of a word that writes a number, or names a register of the last answer.
#[tactic(auto, unfolding(crate::specs::Forms::is_register, crate::specs::Forms::register, crate::specs::Forms::is_last, crate::specs::Forms::is_hexadecimal, crate::specs::Forms::hexadecimal, crate::specs::Reading::hexadecimal_at))]
pub fn any_register(word: &[u8]) -> Option<Reg>
    ensures { Reads result (is_register word.now) (register word.now) }
{
    match word {
        [b'=', digit @ b'0'..=b'7'] => Some(Reg::Last(*digit - b'0')),
        _ => Some(Reg::Num(short_hexadecimal(word)?)),
    }
}

/// The UUID of a word in the hyphenated form, the only one that is taken.
#[tactic(auto, unfolding(crate::specs::Forms::is_uuid, crate::specs::Forms::uuid))]
pub fn uuid(word: &[u8]) -> Option<Uuid>
    ensures { Reads result (is_uuid word.now) (uuid word.now) }
{
    if word.len() != HYPHENATED_LEN {
        return None;
    }
    Uuid::try_parse_ascii(word).ok()
}

/// Writes the bytes of these hexadecimal digits, two for each. Answers whether all are digits.
fn decode(word: &[u8], bytes: &mut [u8]) -> bool
    requires { length word.now ≡ 2 * length bytes.old }
    ensures { Decodes result (decode_pairs 0 word.now) bytes.new }
{
    for i in 0..bytes.len() {
        let Some(byte) = byte_of(word[2 * i], word[2 * i + 1]) else {
            return false;
        };
        bytes[i] = byte;
    }
    true
}

/// The bytes that hexadecimal digits write.
pub fn bytes(alloc: Global, word: &[u8]) -> Result<Vec<u8>, LineFault>
    ensures { Judged (λ v. v.items) result ((BadKind.Hex, is_hex word.now) ∷ []) (bytes word.now) }
{
    if word.len() % 2 != 0 {
        return Err(LineFault::Broken(BadKind::Hex));
    }
    let mut bytes = vec![in alloc; 0u8; word.len() / 2]?;
    if !decode(word, bytes.as_mut_slice()) {
        return Err(LineFault::Broken(BadKind::Hex));
    }
    Ok(bytes)
}
