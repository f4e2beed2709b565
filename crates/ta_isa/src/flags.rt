ghost use Rattle.std.specs.Prelude.{⊤, ◌≡◌, [], ◌∷◌, codes};
ghost use Rattle.ta_isa.specs.Spelling.{are_allowed};

use bitflags::{Flag, Flags, bitflag_items};

/// How instances of an application are shared, with the bits of OP-TEE's `user_ta_header.h`.
#[derive(Clone, Copy)]
pub struct InstanceFlags(u32);

bitflag_items! {
    impl InstanceFlags: u32 {
        // One instance serves all sessions.
        const SINGLE_INSTANCE = 4;
        // That one instance serves several sessions at a time.
        const MULTI_SESSION = 8;
        // That one instance stays when its last session is closed.
        const INSTANCE_KEEP_ALIVE = 16;
    }
}

impl Flags for InstanceFlags {
    type Bits = u32;

    ghost exact = { ⊤ };

    ghost table = { (codes "SINGLE_INSTANCE", 4) ∷ (codes "MULTI_SESSION", 8) ∷ (codes "INSTANCE_KEEP_ALIVE", 16) ∷ [] };

    ghost set_of = { λ f. f.0 };

    fn flags<'a>() -> &'a [Flag<InstanceFlags>] {
        InstanceFlags::FLAGS
    }

    fn bits(&self) -> u32 {
        self.0
    }

    fn from_bits_retain(bits: u32) -> InstanceFlags {
        InstanceFlags(bits)
    }
}

/// The bits that a word of instance flags may have: those of the three flags.
pub const ALLOWED_FLAGS: u32 = 0x1c;

/// Whether a word of flags has only bits that an image may have.
#[tactic(auto, unfolding(crate::specs::Spelling::are_allowed))]
pub(crate) fn are_allowed(flags: u32) -> bool
    ensures { result ≡ are_allowed flags }
{
    InstanceFlags(ALLOWED_FLAGS).contains(InstanceFlags(flags))
}
