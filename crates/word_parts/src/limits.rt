//! How much a trace may hold.

ghost use Rattle.std.specs.Prelude.{◌≡◌, ◌↔◌, IsTrue};
ghost use Rattle.word_parts.specs.Limits.{HasTooMany, is_smc};

use trace_text::Item;

/// The most SMC items of a trace.
const MAX_SMCS: usize = 1 << 16;

/// Whether an item makes a processor come in.
fn is_smc(item: &Item) -> bool
    ensures { result ≡ is_smc item.now }
{
    matches!(item, Item::Smc { .. } | Item::Enter { .. })
}

/// Whether a trace has more SMC items than one may have.
pub fn has_too_many(items: &[Item]) -> bool
    ensures { IsTrue result ↔ HasTooMany items.now }
{
    let count = items.iter().filter(|item| is_smc(*item)).count();
    count > MAX_SMCS
}
