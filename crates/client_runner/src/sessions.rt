//! The names that sessions were opened under.
ghost use Rattle.std.specs.Prelude.{◌≡◌, [], ◌∷◌, ◌++◌, OnErr, OnOk};
ghost use Rattle.client_play.specs.Calls.{session_of};

use base::Sequence;
use std::alloc::{AllocError, Global};
use std::marker::Model;

/// A name and the session that it stands for.
#[derive(Drop)]
struct Named {
    name: Sequence<u8>,
    session: u32,
}

/// The names that were opened so far, the first one first.
#[derive(Drop)]
pub(crate) struct OpenedNames {
    named: Vec<Named>,
}

impl Model for OpenedNames {
    ghost use Rattle.std.specs.Prelude.{map};
    ghost use Rattle.client_play.specs.Calls.{Sessions};

    ghost Value = { Sessions };

    ghost view = { λ names. map (λ named. (named.name, named.session)) names.named.items };
}

impl OpenedNames {
    /// None yet. Takes no memory.
    pub(crate) fn new(alloc: Global) -> OpenedNames
        ensures { result ≡ [] }
    {
        OpenedNames {
            named: Vec::new(alloc),
        }
    }

    /// The session that a name stands for; 0 for one that wasn't opened.
    pub(crate) fn session_of(&self, name: &[u8]) -> u32
        ensures { result ≡ session_of self.now name.now }
    {
        for named in &self.named {
            if named.name.as_slice() == name {
                return named.session;
            }
        }
        0
    }

    /// A name was opened, and stands for this session.
    pub(crate) fn add(&mut self, alloc: Global, name: &[u8], session: u32) -> Result<(), AllocError>
        ensures opened { OnOk result (self.new ≡ self.old ++ (name.now, session) ∷ []) }
        ensures refused { OnErr result (self.new ≡ self.old) }
    {
        let name = Sequence::of(name.to_vec(alloc)?);
        self.named.push(Named { name, session })?;
        Ok(())
    }
}
