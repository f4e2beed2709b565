use crate::relation::Relation;
use uuid::Uuid;

/// What is known of a native application without its function, which answers as the relation says.
#[derive(Clone, Copy, PartialEq, Eq)]
pub struct NativeApp {
    pub uuid: Uuid,
    pub relation: Relation,
}
