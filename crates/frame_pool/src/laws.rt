//! Laws over the definitions of `specs/`, each the contract of a function that does nothing.

ghost use Rattle.frame_pool.specs.Pages.{PagesOfZeros};

/// So many pages of zeros are so many pages.
pub fn pages_of_zeros()
    ensures { PagesOfZeros }
{}
