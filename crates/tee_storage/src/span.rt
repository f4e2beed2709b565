//! The memory range that a call on an object names.
ghost use Rattle.std.specs.Prelude.{◌≡◌, ℕ, ◌<◌, ◌≤◌, ◌+◌, ◌++◌, List, length, take, drop, slice_get, slice_set, Some};
ghost use Rattle.base.specs.Bytes.{overwritten};
ghost use Rattle.hmac.specs.Hashing.{Holds};

use hmac::HmacSha256;
use rpc_msgs::{MAX_PAYLOAD, Payload};

/// The bytes of a memory range, of which the first stands at 0.
pub trait Span {
    /// What it means: the bytes.
    ghost bytes: { Self → List ℕ };

    /// What lies around them, which no write changes.
    ghost Rest: { Type 0 } = { Unit {0} };

    ghost rest: { Self → Self.Rest };

    /// The byte at a place.
    fn get(&self, at: u32) -> u8
        requires { at < length (bytes self.now) }
        ensures { slice_get (bytes self.now) at ≡ Some result };

    /// Writes the byte at a place and no other.
    fn set(&mut self, at: u32, byte: u8)
        requires { at < length (bytes self.old) }
        ensures bytes { bytes self.new ≡ slice_set (bytes self.old) at byte }
        ensures rest { rest self.new ≡ rest self.old };

    /// Copies the bytes from a place on out, which are all there.
    fn read(&self, at: u32, out: &mut [u8])
        requires { at + length out.old ≤ length (bytes self.now) }
        ensures { out.new ≡ take (length out.old) (drop at (bytes self.now)) };

    /// Some bytes from a place on, at least one: as many as can be lent in one piece.
    fn part(&self, at: u32) -> &[u8]
        requires { at < length (bytes self.now) }
        ensures part { result.now ≡ take (length result.now) (drop at (bytes self.now)) }
        ensures some { 0 < length result.now };

    /// Writes a part over the bytes from a place on, which are all there, and over no others.
    fn write(&mut self, at: u32, part: &[u8])
        requires { at + length part.now ≤ length (bytes self.old) }
        ensures bytes { bytes self.new ≡ overwritten (bytes self.old) at part.now }
        ensures rest { rest self.new ≡ rest self.old };
}

/// The bytes of a piece of the range.
pub(crate) fn bytes_of<M: Span>(span: &M, start: u32, len: u32) -> Payload
    requires few { len ≤ 3584 }
    requires within { start + len ≤ length (M.bytes span.now) }
    ensures { result ≡ take len (drop start (M.bytes span.now)) }
{
    let mut room = [0; MAX_PAYLOAD];
    let bytes = &mut room[..len as usize];
    span.read(start, bytes);
    Payload::of(bytes)
}

/// Puts the first bytes of the range behind a message, so many as are asked for.
pub(crate) fn hash_range<M: Span>(hasher: &mut HmacSha256, span: &M, len: u32)
    requires { len ≤ length (M.bytes span.now) }
    ensures { (key message : List ℕ) → Holds hasher.old key message
        → Holds hasher.new key (message ++ take len (M.bytes span.now)) }
{
    let mut done = 0;
    while done < len {
        let part = span.part(done);
        let count = part.len().min((len - done) as usize);
        hasher.update(&part[..count]);
        done += count as u32;
    }
}
