use crate::item::Item;
use crate::limits::{KEY_BYTES, Size};
use crate::trace::Fill;
use ta_isa::App;

/// What a line says by itself.
#[derive(Drop)]
pub enum Statement {
    /// Nothing: the line is empty, or a comment.
    Blank,
    /// What the core is booted with, but for its applications and its key.
    Boot(Size),
    /// An application in an image.
    App(App),
    /// Bytes that stand in every lane of the normal world's memory at the start.
    Fill(Fill),
    /// The key of the boot.
    Key([u8; KEY_BYTES]),
    /// An item of a processor.
    Item(Item),
    /// The hardware signals this value, 1 to 63. No line of a trace alone says so.
    Signal(u32),
}
