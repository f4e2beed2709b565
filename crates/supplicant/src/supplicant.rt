ghost use Rattle.std.specs.Prelude.{◌≡◌, ◌+◌, ◌≤◌, nat_le, false, [], is_some, length, Ok, Err, IfOk, IfErr, OnErr};
ghost use Rattle.rpc_msgs.specs.Answer.{IsReplyTo, nothing_read};
ghost use Rattle.rpc_msgs.specs.Request.{IsPayloadOf, IsRequest};
ghost use Rattle.supplicant.specs.Files.{bytes_of, lowest_free, name_of, with_descriptor, with_empty};
ghost use Rattle.supplicant.specs.Supplicant.{GaveFree, GivesFree, answered, close_file, create_file, known, open_file, piece, read_file, remove_file, time, write_file};

use crate::by_descriptor::{close, name_of, open};
use crate::by_name::{add_empty, file_of, has_file, remove, write_to};
use crate::file::File;
use crate::name::Name;
use base::NoMemory;
use rpc_msgs::{FileName, Rpc, RpcReply};
use std::alloc::Global;
use std::collections::BTreeMap;
use std::marker::Model;
use ta_params::codes::{
    TEE_ERROR_ACCESS_CONFLICT, TEE_ERROR_BAD_PARAMETERS, TEE_ERROR_ITEM_NOT_FOUND,
};

/// The most bytes of a file.
const MAX_FILE_BYTES: u64 = 0x10_0000;

/// What answers requests for the time and for files. Contracts see the files by their names, the names by their
/// descriptors, and the number of requests for the time.
#[derive(Drop)]
pub struct Supplicant {
    files: BTreeMap<Name, File>,
    descriptors: BTreeMap<u64, Name>,
    /// How many requests for the time came. A count that has come to 2^64 - 1 stays there.
    times: u64,
}

impl Model for Supplicant {
    ghost use Rattle.supplicant.specs.Supplicant.{Storage};

    ghost Value = { Storage };

    ghost view = { λ s. record { files = s.files.entries; descriptors = s.descriptors.entries; times = s.times } };
}

impl Supplicant {
    /// No files. Takes no memory.
    pub fn new(alloc: Global) -> Supplicant
        ensures { result ≡ record { files = []; descriptors = []; times = 0 } }
    {
        Supplicant {
            files: BTreeMap::new(alloc),
            descriptors: BTreeMap::new(alloc),
            times: 0,
        }
    }

    /// Answers a request with its payload. At want of memory nothing has changed.
    pub fn answer(&mut self, alloc: Global, rpc: &Rpc, payload: &[u8]) -> Result<RpcReply, NoMemory>
        requires request { IsRequest rpc.now }
        requires payload { IsPayloadOf rpc.now payload.now }
        ensures reply { IfOk result (λ reply. reply ≡ (answered self.old rpc.now payload.now).reply) }
        ensures after { IfOk result (λ reply. self.new ≡ (answered self.old rpc.now payload.now).after) }
        // What isn't read of a reply is 0, or empty.
        ensures kind { IfOk result (λ reply. IsReplyTo rpc.now reply) }
        // No descriptor is given while it is in use.
        ensures free { IfOk result (λ reply. GivesFree self.old rpc.now reply) }
        ensures refused { OnErr result (self.new ≡ self.old) }
    {
        self.reply_to(alloc, rpc, payload)
    }

    fn reply_to(&mut self, alloc: Global, rpc: &Rpc, payload: &[u8]) -> Result<RpcReply, NoMemory>
        requires request { IsRequest rpc.now }
        requires payload { IsPayloadOf rpc.now payload.now }
        ensures reply { IfOk result (λ reply. reply ≡ (answered self.old rpc.now payload.now).reply) }
        ensures after { IfOk result (λ reply. self.new ≡ (answered self.old rpc.now payload.now).after) }
        ensures free { IfOk result (λ reply. GivesFree self.old rpc.now reply) }
        ensures refused { OnErr result (self.new ≡ self.old) }
    {
        match rpc {
            Rpc::Time => Ok(self.time()),
            Rpc::Sleep(_) | Rpc::Wake(_) | Rpc::Suspend(_) => Ok(RpcReply::nothing_read()),
            Rpc::FsOpen(name) => self.open_file(name),
            Rpc::FsCreate(name) => self.create_file(alloc, name),
            Rpc::FsClose(fd) => Ok(self.close_file(*fd)),
            Rpc::FsRead { fd, offset, len } => Ok(self.read_file(*fd, *offset, *len)),
            Rpc::FsWrite { fd, offset, .. } => self.write_file(*fd, *offset, payload),
            Rpc::FsRemove(name) => Ok(self.remove_file(name)),
        }
    }

    /// How many requests for the time came before.
    fn time(&mut self) -> RpcReply
        ensures reply { result ≡ (time self.old).reply }
        ensures after { self.new ≡ (time self.old).after }
    {
        let before = self.times;
        self.times = before.saturating_add(1);
        RpcReply {
            v: before,
            ..RpcReply::nothing_read()
        }
    }

    fn open_file(&mut self, name: &FileName) -> Result<RpcReply, NoMemory>
        ensures reply { IfOk result (λ reply. reply ≡ (open_file self.old name.now).reply) }
        ensures after { IfOk result (λ reply. self.new ≡ (open_file self.old name.now).after) }
        ensures free { IfOk result (λ reply. GaveFree self.old reply) }
        ensures refused { OnErr result (self.new ≡ self.old) }
    {
        let name = Name::of(name);
        if !has_file(&self.files, &name) {
            return Ok(refusal(TEE_ERROR_ITEM_NOT_FOUND));
        }
        let fd = open(&mut self.descriptors, name)?;
        Ok(descriptor(fd))
    }

    fn create_file(&mut self, alloc: Global, name: &FileName) -> Result<RpcReply, NoMemory>
        ensures reply { IfOk result (λ reply. reply ≡ (create_file self.old name.now).reply) }
        ensures after { IfOk result (λ reply. self.new ≡ (create_file self.old name.now).after) }
        ensures free { IfOk result (λ reply. GaveFree self.old reply) }
        ensures refused { OnErr result (self.new ≡ self.old) }
    {
        let name = Name::of(name);
        if has_file(&self.files, &name) {
            return Ok(refusal(TEE_ERROR_ACCESS_CONFLICT));
        }
        let fd = create(alloc, &mut self.files, &mut self.descriptors, name)?;
        Ok(descriptor(fd))
    }

    fn remove_file(&mut self, name: &FileName) -> RpcReply
        ensures reply { result ≡ (remove_file self.old name.now).reply }
        ensures after { self.new ≡ (remove_file self.old name.now).after }
    {
        let name = Name::of(name);
        if !has_file(&self.files, &name) {
            return refusal(TEE_ERROR_ITEM_NOT_FOUND);
        }
        remove(&mut self.files, &name);
        RpcReply::nothing_read()
    }

    fn close_file(&mut self, fd: u64) -> RpcReply
        ensures reply { result ≡ (close_file self.old fd).reply }
        ensures after { self.new ≡ (close_file self.old fd).after }
    {
        match file_at(&self.files, &self.descriptors, fd) {
            Err(ret) => refusal(ret),
            Ok(_) => {
                close(&mut self.descriptors, fd);
                RpcReply::nothing_read()
            }
        }
    }

    fn read_file(&mut self, fd: u64, offset: u64, len: u32) -> RpcReply
        requires { len ≤ 3584 }
        ensures reply { result ≡ (read_file self.old fd offset len).reply }
        ensures after { self.new ≡ (read_file self.old fd offset len).after }
    {
        match file_at(&self.files, &self.descriptors, fd) {
            Err(ret) => refusal(ret),
            Ok((_, file)) => piece_of(file, offset, len),
        }
    }

    fn write_file(&mut self, fd: u64, offset: u64, new: &[u8]) -> Result<RpcReply, NoMemory>
        requires { length new.now ≤ 3584 }
        ensures reply { IfOk result (λ reply. reply ≡ (write_file self.old fd offset new.now).reply) }
        ensures after { IfOk result (λ reply. self.new ≡ (write_file self.old fd offset new.now).after) }
        ensures refused { OnErr result (self.new ≡ self.old) }
    {
        let name = match file_at(&self.files, &self.descriptors, fd) {
            Err(ret) => return Ok(refusal(ret)),
            Ok((name, _)) => name.copy(),
        };
        if !has_room(offset, new) {
            return Ok(refusal(TEE_ERROR_BAD_PARAMETERS));
        }
        write_to(&mut self.files, &name, offset as usize, new)?;
        Ok(RpcReply::nothing_read())
    }
}

/// Creates an empty file of a name that has none, and opens it.
#[tactic(auto, using(crate::proofs::Entries::file_removed_again))]
fn create(
    alloc: Global,
    files: &mut BTreeMap<Name, File>,
    descriptors: &mut BTreeMap<u64, Name>,
    name: Name,
) -> Result<u64, NoMemory>
    requires { is_some (bytes_of files.old.entries name) ≡ false }
    ensures lowest { IfOk result (λ fd. fd ≡ lowest_free descriptors.old.entries) }
    ensures free { IfOk result (λ fd. is_some (name_of descriptors.old.entries fd) ≡ false) }
    ensures files { IfOk result (λ fd. files.new.entries ≡ with_empty files.old.entries name) }
    ensures descriptors { IfOk result (λ fd.
        descriptors.new.entries ≡ with_descriptor descriptors.old.entries fd name) }
    ensures no_file { OnErr result (files.new.entries ≡ files.old.entries) }
    ensures no_descriptor { OnErr result (descriptors.new.entries ≡ descriptors.old.entries) }
{
    add_empty(alloc, files, name.copy())?;
    match open(descriptors, name.copy()) {
        Ok(fd) => Ok(fd),
        Err(refused) => {
            remove(files, &name);
            Err(refused)
        }
    }
}

/// The name and the file of a descriptor, or what a request for it is refused with.
#[tactic(auto, using(crate::proofs::Found::found, crate::proofs::Found::gone, crate::proofs::Found::unknown))]
fn file_at<'a>(
    files: &'a BTreeMap<Name, File>,
    descriptors: &'a BTreeMap<u64, Name>,
    fd: u64,
) -> Result<(&'a Name, &'a File), u32>
    ensures found { IfOk result (λ file. known files.now.entries (name_of descriptors.now.entries fd)
        ≡ Ok (file.0.now, file.1.now)) }
    ensures refused { IfErr result (λ ret. known files.now.entries (name_of descriptors.now.entries fd)
        ≡ Err ret) }
{
    let Some(name) = name_of(descriptors, fd) else {
        return Err(TEE_ERROR_BAD_PARAMETERS);
    };
    match file_of(files, name) {
        Some(file) => Ok((name, file)),
        None => Err(TEE_ERROR_ITEM_NOT_FOUND),
    }
}

/// Whether a file has room for these bytes from an offset on.
fn has_room(offset: u64, new: &[u8]) -> bool
    requires { length new.now ≤ 3584 }
    ensures { result ≡ nat_le (offset + length new.now) 0x100000 }
{
    match offset.checked_add(new.len() as u64) {
        Some(end) => end <= MAX_FILE_BYTES,
        None => false,
    }
}

/// A reply with a result alone.
fn refusal(ret: u32) -> RpcReply
    ensures { result ≡ record nothing_read { ret = ret } }
{
    RpcReply {
        ret,
        ..RpcReply::nothing_read()
    }
}

/// A reply with a descriptor.
fn descriptor(fd: u64) -> RpcReply
    ensures { result ≡ record nothing_read { v = fd } }
{
    RpcReply {
        v: fd,
        ..RpcReply::nothing_read()
    }
}

/// A reply with the bytes that are there of those asked for.
fn piece_of(file: &File, offset: u64, len: u32) -> RpcReply
    requires { len ≤ 3584 }
    ensures { result ≡ record nothing_read { size = length (piece file.now offset len); bytes = piece file.now offset len } }
{
    let bytes = file.piece(offset, len);
    RpcReply {
        size: bytes.bytes().len() as u64,
        bytes,
        ..RpcReply::nothing_read()
    }
}
