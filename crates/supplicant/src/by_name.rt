//! The files by their names.

ghost use Rattle.std.specs.Prelude.{◌≡◌, ◌+◌, ◌≤◌, IfSome, OnErr, OnOk, is_some, length};
ghost use Rattle.std.specs.Option.{option_copied};
ghost use Rattle.supplicant.specs.Files.{bytes_of, file_after, with_bytes, with_empty, without_file};

use crate::file::File;
use crate::name::Name;
use base::NoMemory;
use std::alloc::Global;
use std::collections::BTreeMap;

/// The file of a name.
pub(crate) fn file_of<'a>(files: &'a BTreeMap<Name, File>, name: &Name) -> Option<&'a File>
    ensures { option_copied result ≡ bytes_of files.now.entries name.now }
{
    files.get(name)
}

/// Whether there is a file of a name.
pub(crate) fn has_file(files: &BTreeMap<Name, File>, name: &Name) -> bool
    ensures { result ≡ is_some (bytes_of files.now.entries name.now) }
{
    files.contains_key(name)
}

/// Adds an empty file of a name that has none.
pub(crate) fn add_empty(
    alloc: Global,
    files: &mut BTreeMap<Name, File>,
    name: Name,
) -> Result<(), NoMemory>
    ensures added { OnOk result (files.new.entries ≡ with_empty files.old.entries name) }
    ensures refused { OnErr result (files.new.entries ≡ files.old.entries) }
{
    files.insert(name, File::new(alloc))?;
    Ok(())
}

/// Takes the file of a name away.
pub(crate) fn remove(files: &mut BTreeMap<Name, File>, name: &Name)
    ensures { files.new.entries ≡ without_file files.old.entries name.now }
{
    files.remove(name);
}

/// Writes bytes into the file of a name, from an offset on.
#[tactic(auto, using(crate::proofs::Entries::set_value_itself))]
pub(crate) fn write_to(
    files: &mut BTreeMap<Name, File>,
    name: &Name,
    offset: usize,
    new: &[u8],
) -> Result<(), NoMemory>
    requires room { offset + length new.now ≤ 0x100000 }
    ensures written { OnOk result (IfSome (bytes_of files.old.entries name.now) (λ bytes.
        files.new.entries ≡ with_bytes files.old.entries name.now (file_after bytes offset new.now))) }
    ensures refused { OnErr result (files.new.entries ≡ files.old.entries) }
{
    match files.get_mut(name) {
        Some(file) => file.write(offset, new),
        None => Ok(()),
    }
}
