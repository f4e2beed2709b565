ghost use Rattle.std.specs.Prelude.{◌≡◌, ◌≤◌, [], length};

use arrayvec::ArrayVec;
use std::marker::Model;

/// The most bytes of a payload.
pub const MAX_PAYLOAD: usize = 3584;

/// The bytes that go with a message: at most 3584. Contracts see the list of them.
#[derive(Clone, Debug, Drop)]
pub struct Payload {
    bytes: ArrayVec<u8, MAX_PAYLOAD>,
}

impl Model for Payload {
    ghost use Rattle.std.specs.Prelude.{List, ℕ, ◌≤◌, length};

    ghost Value = { List ℕ };

    ghost view = { λ payload. payload.bytes.items };

    ghost invariant = { λ payload. length payload.bytes.items ≤ 3584 };

    ghost inverse = { λ bytes. record { bytes = record { items = bytes } } };
}

impl Payload {
    /// No bytes.
    pub fn new() -> Payload
        ensures { result ≡ [] }
    {
        Payload {
            bytes: ArrayVec::new(),
        }
    }

    /// Has no bytes.
    pub fn clear(&mut self)
        ensures { self.new ≡ [] }
    {
        self.bytes.clear();
    }

    /// Has these bytes, where it had none.
    pub fn fill(&mut self, bytes: &[u8])
        requires none { self.old ≡ [] }
        requires few { length bytes.now ≤ 3584 }
        ensures { self.new ≡ bytes.now }
    {
        self.bytes.try_extend_from_slice(bytes).unwrap();
    }

    /// These bytes.
    pub fn of(bytes: &[u8]) -> Payload
        requires { length bytes.now ≤ 3584 }
        ensures { result ≡ bytes.now }
    {
        match ArrayVec::try_from(bytes) {
            Ok(bytes) => Payload { bytes },
            Err(_) => unreachable!(),
        }
    }

    /// Its bytes: at most 3584.
    pub fn bytes(&self) -> &[u8]
        ensures bytes { result.now ≡ self.now }
        ensures few { length result.now ≤ 3584 }
    {
        self.bytes.as_slice()
    }
}
