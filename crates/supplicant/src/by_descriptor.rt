//! Which files are open, by their descriptors.

ghost use Rattle.std.specs.Prelude.{◌≡◌, ◌≤◌, IfOk, OnErr, OnOk, false, is_some};
ghost use Rattle.std.specs.Option.{option_copied};
ghost use Rattle.supplicant.specs.Files.{lowest_free, name_of, with_descriptor, without_descriptor};

use crate::name::Name;
use base::NoMemory;
use std::collections::BTreeMap;

/// The name that a descriptor stands for.
pub(crate) fn name_of<'a>(descriptors: &'a BTreeMap<u64, Name>, fd: u64) -> Option<&'a Name>
    ensures { option_copied result ≡ name_of descriptors.now.entries fd }
{
    descriptors.get(&fd)
}

/// The lowest free descriptor.
#[tactic(auto, using(crate::proofs::Free::lowest_is_free, crate::proofs::Freed::searched_none, crate::proofs::Freed::searched_next, crate::proofs::Freed::searched_all, crate::proofs::Freed::searched_free))]
pub(crate) fn lowest_free(descriptors: &BTreeMap<u64, Name>) -> u64
    ensures lowest { result ≡ lowest_free descriptors.now.entries }
    ensures free { is_some (name_of descriptors.now.entries result) ≡ false }
{
    let used = descriptors.len() as u64;
    for fd in 0..used {
        if !descriptors.contains_key(&fd) {
            return fd;
        }
    }
    used
}

/// Lets the lowest free descriptor stand for a name, and answers it.
pub(crate) fn open(descriptors: &mut BTreeMap<u64, Name>, name: Name) -> Result<u64, NoMemory>
    ensures lowest { IfOk result (λ fd. fd ≡ lowest_free descriptors.old.entries) }
    ensures free { IfOk result (λ fd. is_some (name_of descriptors.old.entries fd) ≡ false) }
    ensures added { IfOk result (λ fd. descriptors.new.entries ≡ with_descriptor descriptors.old.entries fd name) }
    ensures refused { OnErr result (descriptors.new.entries ≡ descriptors.old.entries) }
{
    let fd = lowest_free(descriptors);
    descriptors.insert(fd, name)?;
    Ok(fd)
}

/// Frees a descriptor.
pub(crate) fn close(descriptors: &mut BTreeMap<u64, Name>, fd: u64)
    ensures { descriptors.new.entries ≡ without_descriptor descriptors.old.entries fd }
{
    descriptors.remove(&fd);
}
