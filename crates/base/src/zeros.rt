//! The law of the list of zeros that contracts speak of.

ghost use Rattle.base.specs.Zeros.{ZerosAreZeros};

/// A list of zeros is as long as it says, and has 0 at each place.
pub fn zeros_are_zeros()
    ensures { ZerosAreZeros }
{}
