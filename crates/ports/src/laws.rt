ghost use Rattle.std.specs.Prelude.{◌≡◌, ℕ, ◌≤◌, List, [], ◌++◌, Option, Some};
ghost use Rattle.ports.specs.Examples.{Examples};
ghost use Rattle.ports.specs.Port.{Appends, MOST_FAULTS, Moves, Rose};

/// The definitions of this crate at small values.
pub fn worked_examples()
    ensures { Examples }
{}

/// What several calls of a port come to together.
pub fn laws_of_ports()
    ensures moves_nil { (a : Option (List ℕ)) → Moves a a [] }
    ensures moves_both { (a b c : Option (List ℕ)) (xs ys : List ℕ) →
        Moves a b xs → Moves b c ys → Moves a c (xs ++ ys) }
    ensures moves_some { (old xs : List ℕ) (b : Option (List ℕ)) → Moves (Some old) b xs →
        (new : List ℕ) × (b ≡ Some new) × (old ≡ xs ++ new) }

    ensures appends_nil { (a : Option (List ℕ)) → Appends a a [] }
    ensures appends_both { (a b c : Option (List ℕ)) (xs ys : List ℕ) →
        Appends a b xs → Appends b c ys → Appends a c (xs ++ ys) }
    ensures appends_some { (old xs : List ℕ) (b : Option (List ℕ)) →
        Appends (Some old) b xs → b ≡ Some (old ++ xs) }

    ensures rose_earlier { (a b c : ℕ) → a ≤ b → Rose b c → Rose a c }
    ensures rose_later { (a b c : ℕ) → Rose a b → b ≤ c → c ≤ MOST_FAULTS → Rose a c }
{}
