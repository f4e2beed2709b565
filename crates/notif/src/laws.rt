//! What holds of the definitions themselves.
ghost use Rattle.notif.specs.Examples.{Examples};
ghost use Rattle.notif.specs.Laws.{DesksKeepTheirDrivers, SignalsReachDrivers, ValuesPendOnce};

/// Whatever was called since `new`, a bottom half calls exactly the drivers that were signalled, while the desk was
/// enabled, since the last bottom half or stop, each with the number of these signals, at most 2^32 - 1, in rising order
/// of values.
pub fn signals_reach_drivers()
    ensures { SignalsReachDrivers }
{}

/// Whatever was called since `new`, no value is pending twice.
pub fn values_pend_once()
    ensures { ValuesPendOnce }
{}

/// Whatever was called since `new`, a desk is one for the drivers of `new`.
pub fn desks_keep_their_drivers()
    ensures { DesksKeepTheirDrivers }
{}

/// Examples of the definitions, worked out by hand.
pub fn worked_examples()
    ensures { Examples }
{}
