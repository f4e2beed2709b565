ghost use Rattle.std.specs.Prelude.{◌≡◌, ◌+◌, ◌≤◌, [], drop, take, length, OnErr, OnOk};
ghost use Rattle.supplicant.specs.Files.{file_after, lengthened};

use base::NoMemory;
use rpc_msgs::Payload;
use std::alloc::Global;
use std::marker::Model;

/// The bytes of a file.
#[derive(Drop)]
pub(crate) struct File {
    bytes: Vec<u8>,
}

impl Model for File {
    ghost use Rattle.std.specs.Prelude.{List, ℕ};

    ghost Value = { List ℕ };

    ghost view = { λ file. file.bytes.items };
}

impl File {
    /// A file of no bytes. Takes no memory.
    pub(crate) fn new(alloc: Global) -> File
        ensures { result ≡ [] }
    {
        File {
            bytes: Vec::new(alloc),
        }
    }

    /// The bytes that are there of `len` from an offset on.
    pub(crate) fn piece(&self, offset: u64, len: u32) -> Payload
        requires { len ≤ 3584 }
        ensures { result ≡ take len (drop offset self.now) }
    {
        let bytes = self.bytes.as_slice();
        if offset >= bytes.len() as u64 {
            return Payload::new();
        }
        let there = &bytes[offset as usize..];
        let count = there.len().min(len as usize);
        Payload::of(&there[..count])
    }

    /// Writes bytes from an offset on. A gap before them has zeros.
    pub(crate) fn write(&mut self, offset: usize, new: &[u8]) -> Result<(), NoMemory>
        requires { offset + length new.now ≤ 0x100000 }
        ensures written { OnOk result (self.new ≡ file_after self.old offset new.now) }
        ensures refused { OnErr result (self.new ≡ self.old) }
    {
        let end = offset + new.len();
        lengthen(&mut self.bytes, end)?;
        self.bytes[offset..end].copy_from_slice(new);
        Ok(())
    }
}

/// Puts zeros behind the bytes, up to a length.
#[tactic(auto, using(crate::proofs::Lengthened::lengthened_long))]
fn lengthen(bytes: &mut Vec<u8>, len: usize) -> Result<(), NoMemory>
    ensures zeros { OnOk result (bytes.new.items ≡ lengthened bytes.old.items len) }
    ensures long { OnOk result (len ≤ length bytes.new.items) }
    ensures refused { OnErr result (bytes.new.items ≡ bytes.old.items) }
{
    if len <= bytes.len() {
        return Ok(());
    }
    bytes.resize(len, 0)?;
    Ok(())
}
