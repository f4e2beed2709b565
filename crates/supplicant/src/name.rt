ghost use Rattle.std.specs.Prelude.{◌≡◌, Some, nat_eq, refl};
ghost use Rattle.std.specs.Cmp.{partial_equiv_from_equiv};
ghost use Rattle.std.specs.Cmp.Lexicographic.{nat_list_cmp_total, nat_list_eq_equiv, pointwise, texts_po, texts_ties};
ghost use Rattle.supplicant.specs.Files.{name_cmp};

use arrayvec::ArrayVec;
use rpc_msgs::{FileName, MAX_FILE_NAME};
use std::cmp::Ordering;
use std::marker::Model;

/// A file name as the key of a map, in the order of its bytes. Contracts see the list of them.
#[derive(Drop)]
pub(crate) struct Name {
    bytes: ArrayVec<u8, MAX_FILE_NAME>,
}

impl Model for Name {
    ghost use Rattle.std.specs.Prelude.{List, ℕ, ◌≤◌, length};

    ghost Value = { List ℕ };

    ghost view = { λ name. name.bytes.items };

    ghost invariant = { λ name. length name.bytes.items ≤ 161 };
}

impl Name {
    /// The key of a name.
    pub(crate) fn of(name: &FileName) -> Name
        ensures { result ≡ name.now }
    {
        match ArrayVec::try_from(name.bytes()) {
            Ok(bytes) => Name { bytes },
            Err(_) => unreachable!(),
        }
    }

    /// The same name.
    pub(crate) fn copy(&self) -> Name
        ensures { result ≡ self.now }
    {
        match ArrayVec::try_from(self.bytes.as_slice()) {
            Ok(bytes) => Name { bytes },
            Err(_) => unreachable!(),
        }
    }
}

impl PartialEq for Name {
    ghost eq = { pointwise nat_eq };

    ghost laws = { partial_equiv_from_equiv nat_list_eq_equiv };

    fn eq(&self, other: &Name) -> bool {
        self.bytes == other.bytes
    }
}

impl Eq for Name {
    ghost laws = { nat_list_eq_equiv };
}

impl PartialOrd for Name {
    ghost partial_cmp = { λ a b. Some (name_cmp a b) };

    ghost laws = { texts_po };

    fn partial_cmp(&self, other: &Name) -> Option<Ordering> {
        Some(self.cmp(other))
    }
}

impl Ord for Name {
    ghost cmp = { name_cmp };

    ghost total = { nat_list_cmp_total };

    ghost matches_partial_cmp = { λ a b. refl };

    ghost matches_eq = { texts_ties };

    fn cmp(&self, other: &Name) -> Ordering {
        self.bytes.cmp(&other.bytes)
    }
}
