//! Words in a list of bytes that lies in one piece, each moved by one access.
ghost use Rattle.std.specs.Prelude.{◌≡◌, ◌+◌, ◌≤◌, length, Some};
ghost use Rattle.base.specs.Bytes.{has_bytes, overwritten, written};
ghost use Rattle.ta_step.specs.Bytes.{word_at};

/// The word from a place on, its lowest byte first, of bytes that have all four.
#[tactic(auto, using(crate::proofs::Words::word_read))]
pub fn word_of(bytes: &[u8], place: usize) -> u32
    requires { place + 4 ≤ length bytes.now }
    ensures { word_at bytes.now place ≡ Some result }
{
    u32::from_le_bytes([
        bytes[place],
        bytes[place + 1],
        bytes[place + 2],
        bytes[place + 3],
    ])
}

/// Writes four bytes from a place on over bytes that are all there.
#[tactic(auto, using(crate::proofs::Words::word_set))]
pub fn put_word(bytes: &mut [u8], place: usize, word: [u8; 4])
    requires { place + 4 ≤ length bytes.old }
    ensures { bytes.new ≡ overwritten bytes.old place word }
{
    bytes[place] = word[0];
    bytes[place + 1] = word[1];
    bytes[place + 2] = word[2];
    bytes[place + 3] = word[3];
}

fn has_word(bytes: &[u8], place: u32) -> bool
    ensures { result ≡ has_bytes bytes.now place 4 }
{
    place as usize + 4 <= bytes.len()
}

/// The word from a place on, its lowest byte first, if its four bytes are all there.
#[tactic(auto, using(crate::proofs::Words::word_short))]
pub(crate) fn word_in(bytes: &[u8], place: u32) -> Option<u32>
    ensures { result ≡ word_at bytes.now place }
{
    if !has_word(bytes, place) {
        return None;
    }
    Some(word_of(bytes, place as usize))
}

/// Writes four bytes from a place on, or answers `false` where they are not all there.
pub(crate) fn put_word_in(bytes: &mut [u8], place: u32, word: [u8; 4]) -> bool
    ensures inside { result ≡ has_bytes bytes.old place 4 }
    ensures bytes { bytes.new ≡ written bytes.old place word }
{
    let inside = has_word(bytes, place);
    if inside {
        put_word(bytes, place as usize, word);
    }
    inside
}
