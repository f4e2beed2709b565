//! The laws of the finite maps that contracts speak of: lists of pairs in rising order of their numbers.

ghost use Rattle.base.specs.NumberMap.{Laws};
ghost use Rattle.base.specs.Examples.{Examples};

/// What a map has after a change, at each number, and that maps which answer alike are equal.
pub fn number_map_laws<T>()
    ensures { Laws T }
{}

/// Small maps, computed.
pub fn worked_examples()
    ensures { Examples }
{}
