ghost use Rattle.std.specs.Prelude.{◌≡◌, ◌^◌, ◌<◌, ◌↔◌, [], ◌++◌, length, take, IsTrue, IfOk, OnOk, OnErr, Some};
ghost use Rattle.ns_ram.specs.Lane.{IsInRam};
ghost use Rattle.ns_ram.specs.Reads.{listed, total_bytes};
ghost use Rattle.ns_ram.specs.Reader.{over_lane, take_bytes};

use crate::lane::Lane;
use crate::read::Read;
use base::{NoMemory, Sequence};
use std::alloc::Global;
use std::marker::Model;

/// What one call read of the normal world's RAM, in the order of the reads. A read of no bytes isn't listed.
#[derive(Drop)]
pub struct Reads {
    list: Vec<Read>,
}

impl Model for Reads {
    ghost use Rattle.std.specs.Prelude.{List};
    ghost use Rattle.ns_ram.specs.declared.read.Read.{Read};

    ghost Value = { List Read };

    ghost view = { λ reads. reads.list.items };
}

impl Reads {
    /// No reads. Takes no memory.
    pub fn new(alloc: Global) -> Reads
        ensures { result ≡ [] }
    {
        Reads {
            list: Vec::new(alloc),
        }
    }

    /// These reads. Takes no memory.
    pub fn of(list: Vec<Read>) -> Reads
        ensures { result ≡ list.items }
    {
        Reads { list }
    }

    /// Gives the reads back. Takes no memory.
    pub fn into_vec(self) -> Vec<Read>
        ensures { result.items ≡ self }
    {
        let Reads { list } = self;
        list
    }

    /// The reads in their order, lent to read.
    pub fn as_slice(&self) -> &[Read]
        ensures { result.now ≡ self.now }
    {
        self.list.as_slice()
    }

    /// How many reads are listed.
    pub fn len(&self) -> usize
        ensures { result ≡ length self.now }
    {
        self.list.len()
    }

    /// No read is listed.
    pub fn is_empty(&self) -> bool
        ensures { IsTrue result ↔ (self.now ≡ []) }
    {
        self.list.is_empty()
    }

    /// How many bytes were read in all.
    pub fn total_bytes(&self) -> u64
        requires { total_bytes self.now < 2 ^ 64 }
        ensures { result ≡ total_bytes self.now }
    {
        self.list.iter().map(|read| read.bytes.len() as u64).sum()
    }

    /// Lists a read of these bytes at this address.
    pub fn add(&mut self, alloc: Global, addr: u64, bytes: &[u8]) -> Result<(), NoMemory>
        ensures ok { OnOk result (self.new ≡ self.old ++ listed addr bytes.now) }
        ensures err { OnErr result (self.new ≡ self.old) }
    {
        if bytes.is_empty() {
            return Ok(());
        }
        let bytes = Sequence::of(Vec::from_slice(alloc, bytes)?);
        self.list.push(Read { addr, bytes })?;
        Ok(())
    }

    /// Keeps the first `count` reads, or all where there are fewer.
    pub fn truncate(&mut self, count: usize)
        ensures { self.new ≡ take count self.old }
    {
        self.list.truncate(count);
    }

    /// The `len` bytes of the lane at `addr`, and lists that they were read.
    pub fn take_bytes<'a>(
        &mut self,
        alloc: Global,
        lane: &'a Lane,
        addr: u64,
        len: u64,
    ) -> Result<&'a [u8], NoMemory>
        requires { IsInRam addr len }
        ensures ok { IfOk result (λ bytes. over_lane (take_bytes addr len) lane.now self.old
            ≡ Some (bytes.now, self.new)) }
        ensures len { IfOk result (λ bytes. length bytes.now ≡ len) }
        ensures err { OnErr result (self.new ≡ self.old) }
    {
        let bytes = lane.at(addr, len);
        self.add(alloc, addr, bytes)?;
        Ok(bytes)
    }
}
