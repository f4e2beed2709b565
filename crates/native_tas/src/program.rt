//! What the program has built in.
ghost use Rattle.std.specs.Prelude.{◌≡◌};

/// The UUID of the digest application that the program has built in. This project's own.
pub const DIGEST_UUID: [u8; 16] = [
    0x3f, 0x0c, 0x7a, 0x11, 0x52, 0xb8, 0x4d, 0x6e, 0x9a, 0x40, 0x0e, 0x6b, 0x5d, 0x2c, 0x8f, 0x01,
];

/// A driver that answers its notifications by their number.
pub fn echo(count: u32) -> u32
    ensures { result ≡ count }
{
    count
}

/// The table of what the program has built in: the digest application under `DIGEST_UUID`, and a driver of value 1 that
/// answers its notifications by their number. `AllocError` where memory is wanting.
///
/// A macro, since no function may hand out a value with a pointer to a function that it names itself.
#[macro_export]
macro_rules! program_natives {
    ($alloc:expr) => {
        $crate::Natives::of_one(
            $alloc,
            $crate::Native {
                uuid: $crate::Uuid::from_bytes($crate::DIGEST_UUID),
                relation: $crate::Relation::Digest,
                call: $crate::digest,
            },
            $crate::Driver {
                value: 1,
                relation: $crate::DriverRelation::Echo,
                call: $crate::echo,
            },
        )
    };
}
