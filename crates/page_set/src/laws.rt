//! Laws over the definitions of `specs/`, each the contract of a function that does nothing.

ghost use Rattle.std.specs.Prelude.{◌≡◌, Bool, ℕ, List, length};
ghost use Rattle.std.specs.List.{AllByRecursion};
ghost use Rattle.ns_ram.specs.Writes.{Write, lane_after};
ghost use Rattle.page_set.specs.Pages.{IsWriteTo, StaysElsewhere};

/// Writes that lie in the pages of a set leave all other pages as they were.
pub fn writes_stay_in_their_pages()
    ensures { (pages : List Bool) (lane : List ℕ) (writes : List Write) → length pages ≡ 1024 → length lane ≡ 0x400000
        → AllByRecursion (IsWriteTo pages) writes → StaysElsewhere pages lane (lane_after lane writes) }
{}
