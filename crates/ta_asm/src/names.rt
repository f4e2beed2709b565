//! How operations and entry points are written.

ghost use Rattle.std.specs.Prelude.{◌≡◌, ◌<◌};
ghost use Rattle.ta_asm.specs.Grammar.{number_of};
ghost use Rattle.ta_asm.specs.Lines.{entry_at, operation_at};

use crate::word::is;

/// The number of the operation that is written so.
#[tactic(auto, unfolding(crate::specs::Lines::operation_at))]
pub fn operation(word: &[u8]) -> Option<u8>
    ensures { result ≡ operation_at word.now }
{
    if is(word, b"const") {
        return Some(0x01);
    }
    if is(word, b"move") {
        return Some(0x02);
    }
    if is(word, b"add") {
        return Some(0x03);
    }
    if is(word, b"sub") {
        return Some(0x04);
    }
    if is(word, b"mul") {
        return Some(0x05);
    }
    if is(word, b"div") {
        return Some(0x06);
    }
    if is(word, b"rem") {
        return Some(0x07);
    }
    if is(word, b"and") {
        return Some(0x08);
    }
    if is(word, b"or") {
        return Some(0x09);
    }
    if is(word, b"xor") {
        return Some(0x0a);
    }
    if is(word, b"shl") {
        return Some(0x0b);
    }
    if is(word, b"shr") {
        return Some(0x0c);
    }
    if is(word, b"loadb") {
        return Some(0x0d);
    }
    if is(word, b"loadw") {
        return Some(0x0e);
    }
    if is(word, b"storeb") {
        return Some(0x0f);
    }
    if is(word, b"storew") {
        return Some(0x10);
    }
    if is(word, b"beq") {
        return Some(0x11);
    }
    if is(word, b"bne") {
        return Some(0x12);
    }
    if is(word, b"bltu") {
        return Some(0x13);
    }
    if is(word, b"bgeu") {
        return Some(0x14);
    }
    if is(word, b"jump") {
        return Some(0x15);
    }
    if is(word, b"call") {
        return Some(0x16);
    }
    if is(word, b"ret") {
        return Some(0x17);
    }
    if is(word, b"sys") {
        return Some(0x18);
    }
    None
}

/// Where an instance is entered.
#[derive(Clone, Copy, Drop)]
pub enum EntryPoint {
    Create,
    Open,
    Invoke,
    Close,
    Destroy,
}

impl EntryPoint {
    /// Its number, as in an image.
    pub fn number(self) -> u8
        ensures number { result ≡ number_of self }
        ensures few { result < 5 }
    {
        match self {
            EntryPoint::Create => 0,
            EntryPoint::Open => 1,
            EntryPoint::Invoke => 2,
            EntryPoint::Close => 3,
            EntryPoint::Destroy => 4,
        }
    }
}

/// The entry point that is written so.
#[tactic(auto, unfolding(crate::specs::Lines::entry_at))]
pub fn entry(word: &[u8]) -> Option<EntryPoint>
    ensures { result ≡ entry_at word.now }
{
    if is(word, b"create") {
        return Some(EntryPoint::Create);
    }
    if is(word, b"open") {
        return Some(EntryPoint::Open);
    }
    if is(word, b"invoke") {
        return Some(EntryPoint::Invoke);
    }
    if is(word, b"close") {
        return Some(EntryPoint::Close);
    }
    if is(word, b"destroy") {
        return Some(EntryPoint::Destroy);
    }
    None
}
