ghost use Rattle.ta_params.specs.Examples.{Codes, Examples};

/// Examples of the definitions, worked out by hand.
pub fn worked_examples()
    ensures { Examples }
{}

/// The numbers that the API gives its codes and origins.
pub fn codes_of_the_api()
    ensures { Codes }
{}
