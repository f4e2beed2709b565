ghost use Rattle.std.specs.Prelude.{◌≡◌, ◌<◌, ◌≤◌, ◌↔◌, length, IsOk, IfOk, IsErrOf};
ghost use Rattle.std.specs.Str.{IsNotAscii};
ghost use Rattle.rpc_msgs.specs.FileName.{IsFileName};

use crate::fault::FileNameFault;
use arrayvec::ArrayVec;
use std::marker::Model;

/// The most bytes of a file name: 32 digits of a UUID, a slash, and two digits for each byte of an object's
/// id of at most 64 bytes.
pub const MAX_FILE_NAME: usize = 161;

/// The name of a file in the storage of the normal world: at most 161 bytes, all of them ASCII. Contracts
/// see the list of its bytes.
#[derive(Clone, Debug, Drop)]
pub struct FileName {
    bytes: ArrayVec<u8, MAX_FILE_NAME>,
}

impl Model for FileName {
    ghost use Rattle.std.specs.Prelude.{List, ℕ};
    ghost use Rattle.rpc_msgs.specs.FileName.{IsFileName};

    ghost Value = { List ℕ };

    ghost view = { λ name. name.bytes.items };

    ghost invariant = { λ name. IsFileName name.bytes.items };

    ghost inverse = { λ bytes. record { bytes = record { items = bytes } } };
}

impl FileName {
    /// The name of these bytes.
    pub fn new(bytes: &[u8]) -> Result<FileName, FileNameFault>
        ensures name { IfOk result (λ name. name ≡ bytes.now) }
        ensures ok { IsOk result ↔ IsFileName bytes.now }
        ensures too_long { IsErrOf result FileNameFault.TooLong ↔ (161 < length bytes.now) }
        ensures not_ascii { IsErrOf result FileNameFault.NotAscii
            ↔ ((length bytes.now ≤ 161) × IsNotAscii bytes.now) }
    {
        let Ok(name) = ArrayVec::try_from(bytes) else {
            return Err(FileNameFault::TooLong);
        };
        if !bytes.is_ascii() {
            return Err(FileNameFault::NotAscii);
        }
        Ok(FileName { bytes: name })
    }

    /// Its bytes: at most 161, each of ASCII.
    pub fn bytes(&self) -> &[u8]
        ensures bytes { result.now ≡ self.now }
        ensures name { IsFileName self.now }
    {
        self.bytes.as_slice()
    }
}
