ghost use Rattle.std.specs.Prelude.{⊤, [], ◌∷◌, codes};

use bitflags::{Flag, Flags, bitflag_items};

/// What the normal world can do, `OPTEE_SMC_NSEC_CAP_*`.
#[derive(Clone, Copy)]
pub struct NormalCapabilities(pub u32);

/// What the secure world can do, `OPTEE_SMC_SEC_CAP_*`.
#[derive(Clone, Copy)]
pub struct SecureCapabilities(pub u32);

bitflag_items! {
    impl NormalCapabilities: u32 {
        /// `OPTEE_SMC_NSEC_CAP_UNIPROCESSOR`: one processor.
        const UNIPROCESSOR = 0x1;
    }

    impl SecureCapabilities: u32 {
        /// `OPTEE_SMC_SEC_CAP_HAVE_RESERVED_SHM`: a reserved area of shared memory.
        const RESERVED_MEMORY = 0x1;
        /// `OPTEE_SMC_SEC_CAP_UNREGISTERED_SHM`: shared memory that was not registered.
        const UNREGISTERED_MEMORY = 0x2;
        /// `OPTEE_SMC_SEC_CAP_DYNAMIC_SHM`: shared memory that is registered.
        const DYNAMIC_MEMORY = 0x4;
        /// `OPTEE_SMC_SEC_CAP_VIRTUALIZATION`: more than one guest.
        const VIRTUALIZATION = 0x8;
        /// `OPTEE_SMC_SEC_CAP_MEMREF_NULL`: a null memory reference.
        const NULL_REFERENCE = 0x10;
        /// `OPTEE_SMC_SEC_CAP_ASYNC_NOTIF`: asynchronous notification.
        const NOTIFICATION = 0x20;
        /// `OPTEE_SMC_SEC_CAP_RPC_ARG`: the RPC argument beside the message argument.
        const RPC_ARGUMENT = 0x40;
    }
}

impl Flags for NormalCapabilities {
    type Bits = u32;

    ghost exact = { ⊤ };

    ghost table = { (codes "UNIPROCESSOR", 0x1) ∷ [] };

    ghost set_of = { λ c. c.0 };

    fn flags<'a>() -> &'a [Flag<NormalCapabilities>] {
        NormalCapabilities::FLAGS
    }

    fn bits(&self) -> u32 {
        self.0
    }

    fn from_bits_retain(bits: u32) -> NormalCapabilities {
        NormalCapabilities(bits)
    }
}

impl Flags for SecureCapabilities {
    type Bits = u32;

    ghost exact = { ⊤ };

    ghost table = { (codes "RESERVED_MEMORY", 0x1) ∷ (codes "UNREGISTERED_MEMORY", 0x2) ∷ (codes "DYNAMIC_MEMORY", 0x4)
        ∷ (codes "VIRTUALIZATION", 0x8) ∷ (codes "NULL_REFERENCE", 0x10) ∷ (codes "NOTIFICATION", 0x20)
        ∷ (codes "RPC_ARGUMENT", 0x40) ∷ [] };

    ghost set_of = { λ c. c.0 };

    fn flags<'a>() -> &'a [Flag<SecureCapabilities>] {
        SecureCapabilities::FLAGS
    }

    fn bits(&self) -> u32 {
        self.0
    }

    fn from_bits_retain(bits: u32) -> SecureCapabilities {
        SecureCapabilities(bits)
    }
}
