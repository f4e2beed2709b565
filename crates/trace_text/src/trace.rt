use crate::item::Item;
use base::Sequence;
use ta_isa::Boot;

/// Bytes that stand in every lane of the normal world's memory at the start.
#[derive(Debug, Drop)]
pub struct Fill {
    pub addr: u64,
    pub bytes: Sequence<u8>,
}

/// What one run of the core is given. Without a boot there are no fills and no items.
#[derive(Debug, Drop)]
pub struct Trace {
    pub boot: Option<Boot>,
    pub fills: Sequence<Fill>,
    pub items: Sequence<Item>,
}
