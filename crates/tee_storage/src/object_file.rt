//! The file of an object in the storage of the normal world: its name and its header. This project's own.
ghost use Rattle.std.specs.Prelude.{◌≡◌, ◌*◌, ◌+◌, ◌≤◌, ◌++◌, length};
ghost use Rattle.hex.specs.Hex.{encode_lower};
ghost use Rattle.tee_storage.specs.ObjectFiles.{file_name as name_of, format_of as format_by, header as header_with, header_of as header_by, offset_of as offset_by};

use crate::handle::FileFormat;
use arrayvec::ArrayVec;
use rpc_msgs::{FileName, MAX_FILE_NAME, Payload};
use uuid::Uuid;

/// The most bytes of an object's id.
pub const MAX_ID: u32 = 64;
/// How many bytes the header of an object's file has.
pub(crate) const HEADER_BYTES: u32 = 8;
/// The most bytes of an object.
pub const MAX_LENGTH: u32 = 32_768;

/// The bytes that a file of format 1 begins with: OTO1.
const FIRST_MAGIC: [u8; 4] = [0x4f, 0x54, 0x4f, 0x31];
/// Those of a file of format 2: OTO2.
const MAGIC: [u8; 4] = [0x4f, 0x54, 0x4f, 0x32];
/// The most digits of an object's id.
const MAX_DIGITS: usize = 128;

/// What the header of an object's file says.
#[derive(Clone, Copy, Drop)]
pub struct Header {
    pub(crate) format: FileFormat,
    /// How many bytes the object has.
    pub(crate) length: u32,
}

/// The name of the file of an application's object.
pub(crate) fn file_name(uuid: Uuid, id: &[u8]) -> FileName
    requires { length id.now ≤ 64 }
    ensures { result ≡ name_of uuid id.now }
{
    let mut name = ArrayVec::<u8, MAX_FILE_NAME>::new();
    push_digits(&mut name, uuid.as_bytes());
    name.push(b'/');
    push_digits(&mut name, id);
    match FileName::new(name.as_slice()) {
        Ok(name) => name,
        Err(_) => unreachable!(),
    }
}

/// Appends bytes as lower-case hexadecimal digits.
fn push_digits(name: &mut ArrayVec<u8, MAX_FILE_NAME>, bytes: &[u8])
    requires few { length bytes.now ≤ 64 }
    requires room { length name.old.items + 2 * length bytes.now ≤ 161 }
    ensures items { name.new.items ≡ name.old.items ++ encode_lower bytes.now }
    ensures len { length name.new.items ≡ length name.old.items + 2 * length bytes.now }
{
    let mut buffer = [0; MAX_DIGITS];
    let digits = &mut buffer[..2 * bytes.len()];
    let encoded = hex::encode_to_slice(bytes, digits);
    prove!(encoded.is_ok());
    let extended = name.try_extend_from_slice(digits);
    prove!(extended.is_ok());
}

/// What goes with a request that names a file: the bytes of the name.
pub(crate) fn payload_of(name: &FileName) -> Payload
    ensures { result ≡ name.now }
{
    Payload::of(name.bytes())
}

/// The same name once more. Takes no memory.
pub(crate) fn copy_of(name: &FileName) -> FileName
    ensures { result ≡ name.now }
{
    match FileName::new(name.bytes()) {
        Ok(copy) => copy,
        Err(_) => unreachable!(),
    }
}

/// Where an object's byte stands in its file; and behind so many bytes, the tag.
pub(crate) fn offset_of(place: u32) -> u64
    ensures { result ≡ offset_by place }
{
    u64::from(HEADER_BYTES) + u64::from(place)
}

/// What the file of an object of so many bytes begins with.
pub(crate) fn header_bytes(len: u32) -> [u8; HEADER_BYTES as usize]
    ensures { result ≡ header_with len }
{
    let [m0, m1, m2, m3] = MAGIC;
    let [b0, b1, b2, b3] = len.to_le_bytes();
    [m0, m1, m2, m3, b0, b1, b2, b3]
}

/// The format of a file that begins with these bytes.
fn format_of(magic: &[u8]) -> Option<FileFormat>
    ensures { result ≡ format_by magic.now }
{
    if magic == FIRST_MAGIC.as_slice() {
        Some(FileFormat::Untagged)
    } else if magic == MAGIC.as_slice() {
        Some(FileFormat::Tagged)
    } else {
        None
    }
}

/// What eight bytes say as a header, if they are one.
pub(crate) fn header_of(bytes: &[u8]) -> Option<Header>
    requires { length bytes.now ≡ 8 }
    ensures { result ≡ header_by bytes.now }
{
    let length = u32::from_le_bytes([bytes[4], bytes[5], bytes[6], bytes[7]]);
    if length > MAX_LENGTH {
        return None;
    }
    let format = format_of(&bytes[..4])?;
    Some(Header { format, length })
}
