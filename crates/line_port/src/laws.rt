ghost use Rattle.std.specs.Prelude.{List, [], ◌++◌, Option};
ghost use Rattle.line_port.specs.Examples.{Examples};
ghost use Rattle.line_port.specs.History.{Adds, Event};
ghost use Rattle.line_port.specs.Told.{Closes, HappenInTurn, Told};
ghost use Rattle.line_port.specs.declared.finish.Finish.{Finish};

/// The definitions of this crate at small values.
pub fn worked_examples()
    ensures { Examples }
{}

/// What several calls of a port come to together.
pub fn laws_of_ports()
    ensures adds_nil { (history : Option (List Event)) → Adds history history [] }
    ensures adds_both { (a b c : Option (List Event)) (xs ys : List Event) →
        Adds a b xs → Adds b c ys → Adds a c (xs ++ ys) }
    ensures happen_both { (xs ys : List Event) (a b c : Told) → HappenInTurn xs a b → HappenInTurn ys b c → HappenInTurn (xs ++ ys) a c }
    ensures happen_adds { (events : List Event) (a b : Told) → HappenInTurn events a b → Adds a.history b.history events }
    ensures closes_adds { (end : Finish) (a b : Told) → Closes end a b → Adds a.history b.history [] }
{}
