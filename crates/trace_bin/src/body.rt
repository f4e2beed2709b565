//! What a body says.

ghost use Rattle.std.specs.Prelude.{◌≡◌, ◌+◌, ◌≤◌, length, map, take, IfSome};
ghost use Rattle.std.specs.List.{list_all};
ghost use Rattle.trace_text.specs.Judging.{Reads};
ghost use Rattle.trace_bin.specs.Record.{body_len, fixed_len, has_form, is_register, is_whole, number, register, register_places};

use crate::record_kind::RecordKind;
use byteorder::{ByteOrder, LittleEndian};
use trace_text::Reg;
use trace_text::limits::KEY_BYTES;
use uuid::Uuid;

/// Where the eight registers of an entry stand in its body.
const REGISTER_PLACES: [usize; 8] = [5, 10, 15, 20, 25, 30, 35, 40];

/// The number of two bytes at a place.
pub fn short_at(body: &[u8], place: usize) -> u16
    requires { place + 2 ≤ length body.now }
    ensures { result ≡ number 2 place body.now }
{
    LittleEndian::read_u16(&body[place..])
}

/// The number of four bytes at a place.
pub fn word_at(body: &[u8], place: usize) -> u32
    requires { place + 4 ≤ length body.now }
    ensures { result ≡ number 4 place body.now }
{
    LittleEndian::read_u32(&body[place..])
}

/// The number of eight bytes at a place.
pub fn long_at(body: &[u8], place: usize) -> u64
    requires { place + 8 ≤ length body.now }
    ensures { result ≡ number 8 place body.now }
{
    LittleEndian::read_u64(&body[place..])
}

/// The UUID of the first sixteen bytes.
pub fn uuid_in(body: &[u8]) -> Uuid
    requires { 16 ≤ length body.now }
    ensures { result ≡ take 16 body.now }
{
    match Uuid::from_slice(&body[..16]) {
        Ok(uuid) => uuid,
        Err(_) => unreachable!(),
    }
}

/// The key of the first 32 bytes.
pub fn key_in(body: &[u8]) -> [u8; KEY_BYTES]
    requires { 32 ≤ length body.now }
    ensures { result ≡ take 32 body.now }
{
    let mut key = [0; KEY_BYTES];
    key.copy_from_slice(&body[..KEY_BYTES]);
    key
}

/// How many bytes the body of a record has, where so many are there.
#[tactic(auto, unfolding(crate::specs::Record::is_whole))]
pub fn body_len(kind: RecordKind, body: &[u8]) -> Option<usize>
    ensures read { Reads result (is_whole kind body.now) (body_len kind body.now) }
    ensures fixed { IfSome result (λ len. fixed_len kind ≤ len) }
    ensures there { IfSome result (λ len. len ≤ length body.now) }
{
    let fixed = kind.fixed_len();
    if body.len() < fixed {
        return None;
    }
    let len = if kind.has_bytes() {
        fixed + word_at(body, fixed - 4) as usize
    } else {
        fixed
    };
    if body.len() < len { None } else { Some(len) }
}

/// Whether a register has one of the two forms.
#[tactic(auto, unfolding(crate::specs::Record::has_form))]
fn has_form(body: &[u8], place: usize) -> bool
    requires { place + 5 ≤ length body.now }
    ensures { result ≡ has_form body.now place }
{
    body[place] <= 1
}

/// Whether each register of an entry has one of the two forms.
pub fn have_forms(body: &[u8]) -> bool
    requires { 45 ≤ length body.now }
    ensures { result ≡ list_all (has_form body.now) register_places }
{
    has_form(body, 5)
        && has_form(body, 10)
        && has_form(body, 15)
        && has_form(body, 20)
        && has_form(body, 25)
        && has_form(body, 30)
        && has_form(body, 35)
        && has_form(body, 40)
}

/// A register: a number, or one of the eight registers of the last answer.
#[tactic(auto, unfolding(crate::specs::Record::is_register, crate::specs::Record::register))]
fn register(body: &[u8], place: usize) -> Option<Reg>
    requires { place + 5 ≤ length body.now }
    ensures { Reads result (is_register body.now place) (register body.now place) }
{
    let number = word_at(body, place + 1);
    if body[place] == 0 {
        Some(Reg::Num(number))
    } else if number <= 7 {
        Some(Reg::Last(number as u8))
    } else {
        None
    }
}

/// The registers of an entry.
pub fn registers(body: &[u8]) -> Option<[Reg; 8]>
    requires { 45 ≤ length body.now }
    ensures { Reads result (list_all (is_register body.now) register_places) (map (register body.now) register_places) }
{
    let mut regs = [Reg::Num(0); 8];
    for (number, place) in REGISTER_PLACES.iter().enumerate() {
        regs[number] = register(body, *place)?;
    }
    Some(regs)
}
