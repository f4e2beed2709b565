ghost use Rattle.std.specs.Prelude.{◌≡◌, ◌+◌, ◌≤◌, ◌&&◌, nat_lt};
ghost use Rattle.tee_storage.specs.ObjectFiles.{offset_of};
ghost use Rattle.tee_storage.specs.OpenObjects.{new_length};
ghost use Rattle.tee_storage.specs.Replies.{brings_piece as brings};
ghost use Rattle.tee_storage.specs.Transfers.{data_len, this_len};

use crate::handle::Handle;
use crate::object_file::HEADER_BYTES;
use crate::replies::brings_piece;
use crate::tags::{Key, Tag};
use hmac::HmacSha256;
use rpc_msgs::{FileName, MAX_PAYLOAD, RpcReply};

/// An object that is being created or opened, and the number that its handle is to have.
#[derive(Drop)]
pub struct NewObject {
    pub(crate) name: FileName,
    pub(crate) number: u32,
}

/// Bytes that are being read or written.
#[derive(Drop)]
pub struct Transfer {
    pub(crate) handle: u32,
    /// The object of the handle, as it was at the call.
    pub(crate) object: Handle,
    /// How many bytes there are in all.
    pub(crate) len: u32,
    /// How many of them stand before the piece that was asked for.
    pub(crate) done: u32,
}

impl Transfer {
    /// How many bytes the piece has that was asked for, or is to be.
    pub(crate) fn piece_len(&self) -> u32
        ensures { result ≡ this_len self.now }
    {
        self.len.saturating_sub(self.done).min(MAX_PAYLOAD as u32)
    }

    /// Whether the reply brings that piece, and another one follows.
    pub(crate) fn reads_on(&self, reply: &RpcReply) -> bool
        ensures { result ≡ (brings reply.now (this_len self.now) && nat_lt (self.now.done + this_len self.now) self.now.len) }
    {
        let (done, total) = (self.done, self.len);
        let len = self.piece_len();
        brings_piece(reply, len) && done + len < total
    }

    /// The rest of it, behind that piece.
    pub(crate) fn after_piece(self) -> Transfer
        requires { self.done ≤ self.len }
        ensures { result ≡ record self { done = self.done + this_len self } }
    {
        let done = self.done + self.piece_len();
        Transfer { done, ..self }
    }

    /// How many bytes the object has after they are written.
    pub(crate) fn new_length(&self) -> u32
        requires { self.now.object.position + self.now.len ≤ 32768 }
        ensures { result ≡ new_length self.now.object self.now.len }
    {
        self.object.length.max(self.object.position + self.len)
    }

    /// Where the piece stands in the object's file.
    pub(crate) fn offset(&self) -> u64
        ensures { result ≡ offset_of (self.now.object.position + self.now.done) }
    {
        u64::from(HEADER_BYTES) + (u64::from(self.object.position) + u64::from(self.done))
    }
}

/// The tags that an object's data go into as they are read.
#[derive(Drop)]
pub enum Tagging {
    /// The one that the file has: of a read.
    Check(HmacSha256),
    /// The one that the file is to have: of a write, where it has none.
    Make(HmacSha256),
    /// Both: of a write, where it has one.
    Replace { kept: HmacSha256, new: HmacSha256 },
}

/// All the data of an object, which a call reads for its tags.
#[derive(Drop)]
pub struct DataRead {
    /// What the call is to read or write, of which nothing is done yet.
    pub(crate) transfer: Transfer,
    /// How many bytes of the data stand before the piece that was asked for.
    pub(crate) start: u32,
    pub(crate) tagging: Tagging,
}

impl DataRead {
    /// How many bytes the piece has that was asked for, or is to be.
    pub(crate) fn piece_len(&self) -> u32
        ensures { result ≡ data_len self.now }
    {
        let left = self.transfer.object.length.saturating_sub(self.start);
        left.min(MAX_PAYLOAD as u32)
    }

    /// Whether the reply brings that piece, and another one follows.
    pub(crate) fn reads_on(&self, reply: &RpcReply) -> bool
        ensures { result ≡ (brings reply.now (data_len self.now)
            && nat_lt (self.now.start + data_len self.now) self.now.transfer.object.length) }
    {
        let (start, total) = (self.start, self.transfer.object.length);
        let len = self.piece_len();
        brings_piece(reply, len) && start + len < total
    }
}

/// The request of a call whose reply is awaited, with what the call goes on with.
#[derive(Drop)]
pub enum Waits {
    /// None: the call has ended.
    Nothing,
    /// The file of a new object is created, and its tag made under this key.
    Created(NewObject, Key),
    /// Its header and tag are written, under this descriptor.
    HeaderWritten(NewObject, u64),
    /// The file of an object is opened.
    Opened(NewObject),
    /// Its header is read, under this descriptor.
    HeaderRead(NewObject, u64),
    PieceRead(Transfer),
    DataRead(DataRead),
    /// The tag is read of the object of a read, and has to be this one.
    ReadChecked(Transfer, Tag),
    /// The tag is read of the object of a write, and has to be the first; the second is to be written.
    WriteChecked(Transfer, Tag, Tag),
    /// A piece is written, and behind the last one this tag.
    PieceWritten(Transfer, Tag),
    TagWritten(Transfer),
    /// The header is written of an object that has become longer, or had no tag.
    NewHeaderWritten(Transfer),
    Closed(u32),
    /// The file is closed, and then the one of this name removed.
    ClosedToDelete(u32, FileName),
    Removed,
}
