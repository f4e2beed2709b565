/// Fewer pages are free than were asked for: this many. The pool is as it was.
#[derive(Clone, Copy, Debug, PartialEq, Eq)]
pub struct Short(pub u16);
