//! Laws of the definitions, each the contract of a function that does nothing.

ghost use Rattle.ta_asm.specs.Examples.{Examples};
ghost use Rattle.ta_asm.specs.Grammar.{EveryText};
ghost use Rattle.ta_asm.specs.RoundTrip.{EveryImage};

/// A text stands for one image, or has one first fault.
pub fn one_meaning()
    ensures { EveryText }
{}

/// The canonical text of a valid image stands for that image and for no other, and has no fault: assembling it gives the
/// image back, unless memory runs out.
pub fn round_trip()
    ensures { EveryImage }
{}

/// What the definitions say of a few small inputs.
pub fn worked_examples()
    ensures { Examples }
{}
