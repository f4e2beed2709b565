//! Copies of what an event brings.
ghost use Rattle.std.specs.Prelude.{◌≡◌, IfOk};
ghost use Rattle.std.specs.Option.{option_copied};

use base::NoMemory;
use rpc_msgs::{FileName, Rpc};
use ta_params::CopiedParams;

/// The parameters of a call that has any.
pub(crate) fn copied_if_some(
    params: Option<&CopiedParams>,
) -> Result<Option<CopiedParams>, NoMemory>
    ensures { IfOk result (λ copy. copy ≡ option_copied params.entry) }
{
    match params {
        Some(params) => Ok(Some(params.clone()?)),
        None => Ok(None),
    }
}

/// The name of a file. Takes no memory.
fn copied_name(name: &FileName) -> FileName
    ensures { result ≡ name.now }
{
    match FileName::new(name.bytes()) {
        Ok(copy) => copy,
        Err(_) => unreachable!(),
    }
}

/// A request. Takes no memory.
pub(crate) fn copied_rpc(rpc: &Rpc) -> Rpc
    ensures { result ≡ rpc.now }
{
    match rpc {
        Rpc::Time => Rpc::Time,
        Rpc::Sleep(key) => Rpc::Sleep(*key),
        Rpc::Wake(key) => Rpc::Wake(*key),
        Rpc::Suspend(ms) => Rpc::Suspend(*ms),
        Rpc::FsOpen(name) => Rpc::FsOpen(copied_name(name)),
        Rpc::FsCreate(name) => Rpc::FsCreate(copied_name(name)),
        Rpc::FsClose(fd) => Rpc::FsClose(*fd),
        Rpc::FsRead { fd, offset, len } => Rpc::FsRead {
            fd: *fd,
            offset: *offset,
            len: *len,
        },
        Rpc::FsWrite { fd, offset, len } => Rpc::FsWrite {
            fd: *fd,
            offset: *offset,
            len: *len,
        },
        Rpc::FsRemove(name) => Rpc::FsRemove(copied_name(name)),
    }
}
