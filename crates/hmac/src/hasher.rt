ghost use Rattle.std.specs.Prelude.{◌≡◌, ℕ, List, [], ◌++◌};
ghost use Rattle.hmac.specs.Hashing.{Holds};
ghost use Rattle.hmac.specs.Hmac.{hmac as hmac_of};

use crate::blocks::{key_block, masked};
use sha2::{Digest, Sha256};

/// How many bytes an HMAC with SHA-256 has.
pub const TAG_BYTES: usize = 32;

/// The byte that the key is mixed with before the message (RFC 2104, ipad).
const INNER_PAD: u8 = 0x36;
/// The byte that it is mixed with before the digest of that (opad).
const OUTER_PAD: u8 = 0x5c;

/// The HMAC of a message that is taken in piece by piece.
#[derive(Drop)]
pub struct HmacSha256 {
    /// The key's inner block and the message so far.
    inner: Sha256,
    /// The key's outer block.
    outer: Sha256,
}

impl HmacSha256 {
    /// Of the empty message, under a key of any length.
    pub fn new(key: &[u8]) -> HmacSha256
        ensures { Holds result key.now [] }
    {
        let block = key_block(key);
        HmacSha256 {
            inner: Sha256::new_with_prefix(masked(block, INNER_PAD)),
            outer: Sha256::new_with_prefix(masked(block, OUTER_PAD)),
        }
    }

    /// Puts a piece behind the message.
    pub fn update(&mut self, piece: &[u8])
        ensures { (key message : List ℕ) → Holds self.old key message → Holds self.new key (message ++ piece.now) }
    {
        self.inner.update(piece);
    }

    /// The HMAC of the message.
    #[tactic(auto, unfolding(crate::specs::Hmac::hmac))]
    pub fn finalize(self) -> [u8; TAG_BYTES]
        ensures { (key message : List ℕ) → Holds self key message → result ≡ hmac_of key message }
    {
        let HmacSha256 { inner, mut outer } = self;
        outer.update(inner.finalize());
        outer.finalize()
    }
}

/// The HMAC of a message under a key of any length.
pub fn hmac(key: &[u8], message: &[u8]) -> [u8; TAG_BYTES]
    ensures { result ≡ hmac_of key.now message.now }
{
    let mut hasher = HmacSha256::new(key);
    hasher.update(message);
    hasher.finalize()
}
