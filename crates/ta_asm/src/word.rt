//! Words of a line: what they write.

ghost use Rattle.std.specs.Prelude.{◌≡◌, ◌<◌, ◌≤◌, ◌^◌, IfSome};
ghost use Rattle.std.specs.List.{list_all};
ghost use Rattle.std.specs.Str.{bytes_eq};
ghost use Rattle.ta_asm.specs.Words.{digits_at, decimal_at, has_leading_zero, is_letter, is_name, is_name_byte, number_at, register_at};

/// One more than the largest number.
const LIMIT: u64 = 1 << 32;

/// The last register.
const LAST_REGISTER: u32 = 15;

/// Whether a word is this one.
pub fn is(word: &[u8], name: &[u8]) -> bool
    ensures { result ≡ bytes_eq word.now name.now }
{
    word == name
}

/// Whether a word begins with a zero that is not all of it.
fn has_leading_zero(word: &[u8]) -> bool
    ensures { result ≡ has_leading_zero word.now }
{
    matches!(word, [b'0', _, ..])
}

/// The number that digits write, as many as there are, where it is below 2^32.
#[tactic(auto, unfolding(crate::specs::Words::digits_at))]
fn digits(word: &[u8], radix: u32) -> Option<u32>
    requires least { 2 ≤ radix }
    requires most { radix ≤ 16 }
    ensures { result ≡ digits_at radix word.now }
{
    if word.is_empty() {
        return None;
    }
    let mut number = 0u64;
    for byte in word {
        let digit = char::from(*byte).to_digit(radix)?;
        number = (number * u64::from(radix) + u64::from(digit)).min(LIMIT);
    }
    if number < LIMIT {
        Some(number as u32)
    } else {
        None
    }
}

/// The number that decimal digits write, without a leading zero but in `0`.
#[tactic(auto, unfolding(crate::specs::Words::decimal_at))]
fn decimal(word: &[u8]) -> Option<u32>
    ensures { result ≡ decimal_at word.now }
{
    if has_leading_zero(word) {
        return None;
    }
    digits(word, 10)
}

/// The number of a word: hexadecimal behind `0x`, or decimal.
#[tactic(auto, unfolding(crate::specs::Words::number_at))]
pub fn number(word: &[u8]) -> Option<u32>
    ensures { result ≡ number_at word.now }
{
    match word {
        [b'0', b'x', ..] => digits(&word[2..], 16),
        _ => decimal(word),
    }
}

/// The register of a word, `r0` to `r15`.
#[tactic(auto, unfolding(crate::specs::Words::register_at))]
pub fn register(word: &[u8]) -> Option<u8>
    ensures read { result ≡ register_at word.now }
    ensures few { IfSome result (λ r. r < 16) }
{
    match word {
        [b'r', ..] => {
            let number = decimal(&word[1..])?;
            if number <= LAST_REGISTER {
                Some(number as u8)
            } else {
                None
            }
        }
        _ => None,
    }
}

fn is_letter(byte: u8) -> bool
    ensures { result ≡ is_letter byte }
{
    matches!(byte, b'A'..=b'Z' | b'a'..=b'z')
}

/// Whether a byte may stand in a name.
fn is_name_byte(byte: u8) -> bool
    ensures { result ≡ is_name_byte byte }
{
    is_letter(byte) || matches!(byte, b'0'..=b'9') || byte == b'_'
}

fn are_name_bytes(word: &[u8]) -> bool
    ensures { result ≡ list_all is_name_byte word.now }
{
    word.iter().all(|byte| is_name_byte(*byte))
}

/// Whether a word is the name of a label.
#[tactic(auto, unfolding(crate::specs::Words::is_name))]
pub fn is_name(word: &[u8]) -> bool
    ensures { result ≡ is_name word.now }
{
    !word.is_empty() && is_letter(word[0]) && are_name_bytes(word)
}
