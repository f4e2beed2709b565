//! The tag at the end of an object's file.
ghost use Rattle.std.specs.Prelude.{◌≡◌};
ghost use Rattle.hmac.specs.Hashing.{Holds};
ghost use Rattle.tee_storage.specs.Tags.{brings as brings_tag, first_tag as first_tag_of, is_tagged as has_tag, tag_front, tag_offset};

use crate::handle::{FileFormat, Handle};
use crate::object_file::offset_of;
use crate::replies::is_whole;
use hmac::HmacSha256;
use rpc_msgs::{FileName, Rpc, RpcReply};

/// How many bytes a tag has.
pub(crate) const TAG_BYTES: u32 = 32;

/// The key of the tags, which the boot brings.
pub type Key = [u8; 32];

/// The tag of a file.
pub type Tag = [u8; TAG_BYTES as usize];

/// Whether the object's file has a tag.
pub(crate) fn is_tagged(object: &Handle) -> bool
    ensures { result ≡ has_tag object.now }
{
    match object.format {
        FileFormat::Untagged => false,
        FileFormat::Tagged => true,
    }
}

/// What the tag of a file of this name with so many bytes is of, but for the bytes themselves.
pub(crate) fn tag_hasher(key: &Key, name: &FileName, len: u32) -> HmacSha256
    ensures { Holds result key.now (tag_front name.now len) }
{
    let mut hasher = HmacSha256::new(key);
    hasher.update(name.bytes());
    hasher.update(&[0]);
    hasher.update(&len.to_le_bytes());
    hasher
}

/// The tag of an object without data.
pub(crate) fn first_tag(key: &Key, name: &FileName) -> Tag
    ensures { result ≡ first_tag_of key.now name.now }
{
    tag_hasher(key, name, 0).finalize()
}

/// The request for the tag of an object.
pub(crate) fn tag_request(object: &Handle) -> Rpc
    ensures { result ≡ Rpc.FsRead object.now.fd (tag_offset object.now.length) 32 }
{
    Rpc::FsRead {
        fd: object.fd,
        offset: offset_of(object.length),
        len: TAG_BYTES,
    }
}

/// Whether a reply brings just this tag.
pub(crate) fn brings(reply: &RpcReply, tag: &Tag) -> bool
    ensures { result ≡ brings_tag reply.now tag.now }
{
    is_whole(reply, TAG_BYTES) && reply.bytes.bytes() == tag.as_slice()
}
