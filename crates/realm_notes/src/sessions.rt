//! The realm's numbers of its sessions.
ghost use Rattle.std.specs.Prelude.{◌≡◌, IfOk};
ghost use Rattle.base.specs.NumberMap.{get, insert};

use base::NoMemory;
use std::collections::BTreeMap;

/// The number that is kept for this one, if one is.
pub(crate) fn number_at(numbers: &BTreeMap<u32, u32>, at: u32) -> Option<u32>
    ensures { result ≡ get numbers.now.entries at }
{
    numbers.get(&at).copied()
}

/// Keeps a number for this one.
pub(crate) fn keep(numbers: &mut BTreeMap<u32, u32>, at: u32, number: u32) -> Result<(), NoMemory>
    ensures { IfOk result (λ _. numbers.new.entries ≡ insert numbers.old.entries at number) }
{
    numbers.insert(at, number)?;
    Ok(())
}
