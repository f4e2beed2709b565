ghost use Rattle.std.specs.Prelude.{◌≡◌, ℕ, min};
ghost use Rattle.std.specs.Char.{digit_value};
ghost use Rattle.hex.specs.Hex.{pair_value};
ghost use Rattle.trace_text.specs.Reading.{IsPair};

/// What stands beside a byte that is no digit.
const NO: u8 = 16;

/// The value of each byte as a hexadecimal digit of either case.
static DIGITS: [u8; 256] = [
    NO, NO, NO, NO, NO, NO, NO, NO, NO, NO, NO, NO, NO, NO, NO, NO, NO, NO, NO, NO, NO, NO, NO, NO,
    NO, NO, NO, NO, NO, NO, NO, NO, NO, NO, NO, NO, NO, NO, NO, NO, NO, NO, NO, NO, NO, NO, NO, NO,
    0, 1, 2, 3, 4, 5, 6, 7, 8, 9, NO, NO, NO, NO, NO, NO, NO, 10, 11, 12, 13, 14, 15, NO, NO, NO,
    NO, NO, NO, NO, NO, NO, NO, NO, NO, NO, NO, NO, NO, NO, NO, NO, NO, NO, NO, NO, NO, NO, NO, 10,
    11, 12, 13, 14, 15, NO, NO, NO, NO, NO, NO, NO, NO, NO, NO, NO, NO, NO, NO, NO, NO, NO, NO, NO,
    NO, NO, NO, NO, NO, NO, NO, NO, NO, NO, NO, NO, NO, NO, NO, NO, NO, NO, NO, NO, NO, NO, NO, NO,
    NO, NO, NO, NO, NO, NO, NO, NO, NO, NO, NO, NO, NO, NO, NO, NO, NO, NO, NO, NO, NO, NO, NO, NO,
    NO, NO, NO, NO, NO, NO, NO, NO, NO, NO, NO, NO, NO, NO, NO, NO, NO, NO, NO, NO, NO, NO, NO, NO,
    NO, NO, NO, NO, NO, NO, NO, NO, NO, NO, NO, NO, NO, NO, NO, NO, NO, NO, NO, NO, NO, NO, NO, NO,
    NO, NO, NO, NO, NO, NO, NO, NO, NO, NO, NO, NO, NO, NO, NO, NO, NO, NO, NO, NO, NO, NO, NO, NO,
    NO, NO, NO, NO, NO, NO, NO, NO, NO, NO, NO, NO, NO, NO,
];

/// The value of a byte as a hexadecimal digit of either case; 16 for a byte that is none.
pub fn digit_of(byte: u8) -> u8
    ensures { result ≡ min 16 (digit_value byte) }
{
    DIGITS[usize::from(byte)]
}

/// The byte that two hexadecimal digits write.
#[inline(always)]
pub fn byte_of(high: u8, low: u8) -> Option<u8>
    ensures { (place : ℕ) → IsPair result (pair_value high low place) }
{
    let high = digit_of(high);
    let low = digit_of(low);
    if high >= 16 || low >= 16 {
        return None;
    }
    Some(high * 16 + low)
}
