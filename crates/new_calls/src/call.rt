use crate::entered::Entered;
use kernel_state::{Setup, Tables};

/// A call that has passed the tests of every call, with the tables that it found, lent to read.
#[derive(Drop)]
pub struct CallAtEntry<'a> {
    pub setup: &'a Setup,
    pub tables: &'a Tables,
    pub entered: Entered,
}
