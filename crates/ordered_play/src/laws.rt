//! What holds of the definitions themselves.
ghost use Rattle.ordered_play.specs.Examples.{Examples};
ghost use Rattle.ordered_play.specs.Places.{BlocksNameTheOrder, PartsPrintTheirPlaces, PlacesAreEachOnce};
ghost use Rattle.ordered_play.specs.Laws.{BlocksAreOfSeats, BlocksMerge, PartsAreUnique, PartsGrow, PartsMerge, PartsStay, PlaysHaveParts, RefusalsMerge};

/// A processor has at most one part of a history: over the same RAM the same items end in the same standing.
pub fn parts_are_unique()
    ensures { PartsAreUnique }
{}

/// A processor's part depends on the history only up to its last event: it stays where events of others follow.
pub fn parts_stay()
    ensures { PartsStay }
{}

/// A part grows with its processor's events: the entry or exit that it leaves comes behind all others, and then RAM is
/// written and shown up to the next.
pub fn parts_grow()
    ensures { PartsGrow }
{}

/// Where each processor has its part of a legal history, whose entries have read at most 2^28 bytes, the play in the
/// order of the history's events has this history, and for each processor what its part has come to: its RAM, its
/// lines, and the acts that it leaves.
pub fn parts_merge()
    ensures { PartsMerge }
{}

/// The same with refused entries: each comes at a place behind its processor's last event, where the bytes read would
/// have come to more than 2^28 with it, and its processor has come to its part with what was refused.
pub fn refusals_merge()
    ensures { RefusalsMerge }
{}

/// The history of each play in an order is legal, its entries have read at most 2^28 bytes, and each processor has come
/// to its part of it, with its refused entry where it has one.
pub fn plays_have_parts()
    ensures { PlaysHaveParts }
{}

/// What is printed of a play is the blocks of its seats, one behind the other; it has ended where no seat has an act to
/// come; and an entry was refused just where one of a seat was.
pub fn blocks_are_of_seats()
    ensures { BlocksAreOfSeats }
{}

/// Where the processors of a trace have their parts of one legal history, and all of these are done or stop at a refused
/// entry, the blocks of the trace in that history's order are theirs, one behind the other.
pub fn blocks_merge()
    ensures { BlocksMerge }
{}

/// A processor's part of a legal history prints the places of its events there, in their order; where it has come in last and hasn't
/// gone out, all but that of this entry.
pub fn parts_print_their_places()
    ensures { PartsPrintTheirPlaces }
{}

/// A play that has ended, of a trace whose processors come in and go out by turns, has printed the places 0 to 2m - 1 for the m SMCs
/// that have come in, each once, by the processor whose event stands there.
pub fn places_are_each_once()
    ensures { PlacesAreEachOnce }
{}

/// Of a trace whose processors come in and go out by turns, an order in which no entry is refused has blocks that no other order has,
/// where these are fewer than 2^64 bytes.
pub fn blocks_name_the_order()
    ensures { BlocksNameTheOrder }
{}

/// Plays of two processors in several orders, with what they print, and parts of their histories.
pub fn worked_examples()
    ensures { Examples }
{}
