//! The copied parameters as the machine reaches them: by number, as values, and as buffers.
ghost use Rattle.std.specs.Prelude.{◌≡◌, ◌+◌, ◌^◌, ◌<◌, ◌≤◌, [], drop, length, map, take, option_and_then, slice_get, slice_index_or, is_some, unwrap_or};
ghost use Rattle.std.specs.Option.{option_copied, option_map_or};
ghost use Rattle.base.specs.Bytes.{has_bytes, written};
ghost use Rattle.ta_step.specs.Bytes.{word_at};
ghost use Rattle.ta_step.specs.Parameters.{buffer, four, goes_out, param_at, with_buffer, with_param, with_size, with_value};

use crate::memory::TaMemory;
use crate::{access, part_access, word_access};
use ta_params::{Buf, CopiedParams, GpParam, Way};

impl TaMemory for Buf {
    ghost bytes = { λ b. b };

    fn load(&self, addr: u32) -> Option<u8> {
        self.bytes().get(addr as usize).copied()
    }

    fn store(&mut self, addr: u32, value: u8) -> bool {
        let bytes = self.bytes_mut();
        let found = (addr as usize) < bytes.len();
        if found {
            bytes[addr as usize] = value;
        }
        found
    }

    fn load_word(&self, addr: u32) -> Option<u32> {
        word_access::word_in(self.bytes(), addr)
    }

    fn store_word(&mut self, addr: u32, word: [u8; 4]) -> bool {
        word_access::put_word_in(self.bytes_mut(), addr, word)
    }

    fn read(&self, addr: u32, out: &mut [u8]) {
        part_access::copy_part(self.bytes(), addr as usize, out);
    }

    fn part(&self, addr: u32) -> &[u8] {
        &self.bytes()[addr as usize..]
    }

    fn write(&mut self, addr: u32, part: &[u8]) {
        part_access::put_part(self.bytes_mut(), addr as usize, part);
    }
}

/// The parameter of a number, 0 to 3.
pub(crate) fn param_at(params: &CopiedParams, number: u32) -> Option<&GpParam>
    ensures { option_copied result ≡ param_at params.now number }
{
    match number {
        0 => Some(&params.p0),
        1 => Some(&params.p1),
        2 => Some(&params.p2),
        3 => Some(&params.p3),
        _ => None,
    }
}

/// The buffer of the parameter of a number, if it has one.
fn buffer_at(params: &CopiedParams, number: u32) -> Option<&Buf>
    ensures { unwrap_or (option_copied result) [] ≡ slice_index_or (map buffer (four params.now)) number [] }
{
    match param_at(params, number)? {
        GpParam::Memref { buf, .. } => Some(buf),
        _ => None,
    }
}

/// The byte of a parameter's buffer at a place.
pub(crate) fn load(params: &CopiedParams, number: u32, place: u32) -> Option<u8>
    ensures { result ≡ slice_get (slice_index_or (map buffer (four params.now)) number []) place }
{
    buffer_at(params, number)?.load(place)
}

/// The word of a parameter's buffer from a place on.
pub(crate) fn load_word(params: &CopiedParams, number: u32, place: u32) -> Option<u32>
    requires { place + 4 < 2 ^ 32 }
    ensures { result ≡ word_at (slice_index_or (map buffer (four params.now)) number []) place }
{
    buffer_at(params, number)?.load_word(place)
}

/// The bytes of a parameter's buffer from a place on, of which there are some.
pub(crate) fn part(params: &CopiedParams, number: u32, place: u32) -> &[u8]
    requires { place < length (slice_index_or (map buffer (four params.now)) number []) }
    ensures part { let buffers = map buffer (four params.now) in
        result.now ≡ take (length result.now) (drop place (slice_index_or buffers number [])) }
    ensures some { 0 < length result.now }
{
    match buffer_at(params, number) {
        Some(buf) => buf.part(place),
        None => unreachable!(),
    }
}

/// Copies bytes of a parameter's buffer from a place on out, which are all there.
pub(crate) fn read(params: &CopiedParams, number: u32, place: u32, out: &mut [u8])
    requires some { 0 < length out.old }
    requires inside { place + length out.old ≤ length (slice_index_or (map buffer (four params.now)) number []) }
    ensures { let buffers = map buffer (four params.now) in
        out.new ≡ take (length out.old) (drop place (slice_index_or buffers number [])) }
{
    match buffer_at(params, number) {
        Some(buf) => buf.read(place, out),
        None => unreachable!(),
    }
}

/// Whether so many bytes of a parameter's buffer from a place on are all there.
pub(crate) fn has_bytes(params: &CopiedParams, number: u32, place: u32, count: u32) -> bool
    requires some { 0 < count }
    requires fits { place + count < 2 ^ 32 }
    ensures { result ≡ has_bytes (slice_index_or (map buffer (four params.now)) number []) place count }
{
    match buffer_at(params, number) {
        Some(buf) => access::has_bytes(buf, place, count),
        None => false,
    }
}

/// Writes bytes into the buffer of the parameter of a number, or answers `false` where they are not all there.
pub(crate) fn write(params: &mut CopiedParams, number: u32, place: u32, bytes: &[u8]) -> bool
    requires some { 0 < length bytes.now }
    requires fits { place + length bytes.now < 2 ^ 32 }
    ensures inside { let buffers = map buffer (four params.old) in
        result ≡ has_bytes (slice_index_or buffers number []) place (length bytes.now) }
    ensures params { let buffers = map buffer (four params.old) in
        let param = slice_index_or (four params.old) number params.old.p0 in
        params.new ≡ with_param params.old number
        (with_buffer param (written (slice_index_or buffers number []) place bytes.now)) }
{
    match number {
        0 => write_to(&mut params.p0, place, bytes),
        1 => write_to(&mut params.p1, place, bytes),
        2 => write_to(&mut params.p2, place, bytes),
        3 => write_to(&mut params.p3, place, bytes),
        _ => false,
    }
}

fn write_to(param: &mut GpParam, place: u32, bytes: &[u8]) -> bool
    requires some { 0 < length bytes.now }
    requires fits { place + length bytes.now < 2 ^ 32 }
    ensures inside { result ≡ has_bytes (buffer param.old) place (length bytes.now) }
    ensures param { param.new ≡ with_buffer param.old (written (buffer param.old) place bytes.now) }
{
    match param {
        GpParam::Memref { buf, .. } => access::write_bytes(buf, place, bytes),
        _ => false,
    }
}

/// Whether the client is handed what the application leaves.
fn goes_out(way: Way) -> bool
    ensures { result ≡ goes_out way }
{
    match way {
        Way::In => false,
        Way::Out | Way::Inout => true,
    }
}

/// Changes the two numbers of the value of a number, or answers `false` where it is none that goes out.
pub(crate) fn set_value(params: &mut CopiedParams, number: u32, first: u32, second: u32) -> bool
    ensures done { let changed = option_and_then (λ p. with_value p first second) (param_at params.old number) in
        result ≡ is_some changed }
    ensures params { let changed = option_and_then (λ p. with_value p first second) (param_at params.old number) in
        params.new ≡ option_map_or (with_param params.old number) changed params.old }
{
    match number {
        0 => set_value_of(&mut params.p0, first, second),
        1 => set_value_of(&mut params.p1, first, second),
        2 => set_value_of(&mut params.p2, first, second),
        3 => set_value_of(&mut params.p3, first, second),
        _ => false,
    }
}

fn set_value_of(param: &mut GpParam, first: u32, second: u32) -> bool
    ensures done { result ≡ is_some (with_value param.old first second) }
    ensures param { param.new ≡ unwrap_or (with_value param.old first second) param.old }
{
    match param {
        GpParam::Value { way, a, b } if goes_out(*way) => {
            *a = first;
            *b = second;
            true
        }
        _ => false,
    }
}

/// Changes the size of the memory parameter of a number, or answers `false` where it is none that goes out.
pub(crate) fn set_size(params: &mut CopiedParams, number: u32, size: u32) -> bool
    ensures done { let changed = option_and_then (λ p. with_size p size) (param_at params.old number) in
        result ≡ is_some changed }
    ensures params { let changed = option_and_then (λ p. with_size p size) (param_at params.old number) in
        params.new ≡ option_map_or (with_param params.old number) changed params.old }
{
    match number {
        0 => set_size_of(&mut params.p0, size),
        1 => set_size_of(&mut params.p1, size),
        2 => set_size_of(&mut params.p2, size),
        3 => set_size_of(&mut params.p3, size),
        _ => false,
    }
}

fn set_size_of(param: &mut GpParam, new_size: u32) -> bool
    ensures done { result ≡ is_some (with_size param.old new_size) }
    ensures param { param.new ≡ unwrap_or (with_size param.old new_size) param.old }
{
    match param {
        GpParam::Memref { way, size, .. } if goes_out(*way) => {
            *size = new_size;
            true
        }
        _ => false,
    }
}
