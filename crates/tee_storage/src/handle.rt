ghost use Rattle.std.specs.Prelude.{◌≡◌};
ghost use Rattle.tee_storage.specs.ObjectFiles.{format_number};

use rpc_msgs::FileName;

/// The format of an object's file.
#[derive(Clone, Copy)]
pub enum FileFormat {
    /// Format 1: the header and the data alone.
    Untagged,
    /// Format 2, that of each file that is written: a tag stands behind the data.
    Tagged,
}

impl FileFormat {
    /// Its number, 1 or 2.
    pub fn number(self) -> u8
        ensures { result ≡ format_number self }
    {
        match self {
            FileFormat::Untagged => 1,
            FileFormat::Tagged => 2,
        }
    }
}

/// One open object.
#[derive(Drop)]
pub struct Handle {
    /// The name of the object's file in the storage of the normal world.
    pub name: FileName,
    /// The descriptor that the normal world gave for the open file.
    pub fd: u64,
    /// The number of the object's bytes.
    pub length: u32,
    /// Where the next byte is read or written, at most the length.
    pub position: u32,
    /// The format of the object's file.
    pub format: FileFormat,
}
