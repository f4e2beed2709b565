//! Several bytes of a memory at a time.
ghost use Rattle.std.specs.Prelude.{◌≡◌, ◌+◌, ◌^◌, ◌<◌, [], ◌∷◌, length};
ghost use Rattle.base.specs.Bytes.{has_bytes, written};

use crate::memory::TaMemory;

/// Whether so many bytes from a place on are all there.
#[tactic(auto, using(crate::proofs::Present::present))]
pub(crate) fn has_bytes<T: TaMemory>(memory: &T, place: u32, count: u32) -> bool
    requires some { 0 < count }
    requires fits { place + count < 2 ^ 32 }
    ensures { result ≡ has_bytes (T.bytes memory.now) place count }
{
    memory.load(place + (count - 1)).is_some()
}

/// Writes one byte, or answers `false` where there is none at that place.
#[tactic(auto, using(crate::proofs::Words::byte_written))]
pub(crate) fn store_byte<T: TaMemory>(memory: &mut T, place: u32, value: u8) -> bool
    requires { place + 1 < 2 ^ 32 }
    ensures inside { result ≡ has_bytes (T.bytes memory.old) place 1 }
    ensures bytes { T.bytes memory.new ≡ written (T.bytes memory.old) place (value ∷ []) }
{
    memory.store(place, value)
}

/// Writes bytes from a place on, or answers `false` where they are not all there.
pub(crate) fn write_bytes<T: TaMemory>(memory: &mut T, place: u32, bytes: &[u8]) -> bool
    requires some { 0 < length bytes.now }
    requires fits { place + length bytes.now < 2 ^ 32 }
    ensures inside { result ≡ has_bytes (T.bytes memory.old) place (length bytes.now) }
    ensures bytes { T.bytes memory.new ≡ written (T.bytes memory.old) place bytes.now }
{
    if let [b0, b1, b2, b3] = bytes {
        return memory.store_word(place, [*b0, *b1, *b2, *b3]);
    }
    let inside = has_bytes(memory, place, bytes.len() as u32);
    if inside {
        memory.write(place, bytes);
    }
    inside
}
