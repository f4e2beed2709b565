//! The pages of the places of a call's parameters.
ghost use Rattle.std.specs.Prelude.{◌≤◌};
ghost use Rattle.std.specs.List.{AllByRecursion};
ghost use Rattle.exit_pages.specs.Covering.{CoversBytes, CoversPiece, CoversPlace};
ghost use Rattle.msg_args.specs.Layout.{param_place};
ghost use Rattle.page_set.specs.Pages.{IsWithin};

use msg_args::{HEAD_LEN, PARAM_LEN};
use ns_ram::{RAM_BYTES, RAM_START};
use page_set::PageSet;
use param_copy::Place;
use shm_registry::Piece;

/// Adds the pages of the parameter of a number in an argument.
fn mark_param(pages: &mut PageSet, arg: u64, number: u64)
    requires { number ≤ 255 }
    ensures covers { CoversBytes pages.new (param_place arg number) 32 }
    ensures keeps { IsWithin pages.old pages.new }
{
    if arg < RAM_START + RAM_BYTES {
        pages.mark(arg + HEAD_LEN + PARAM_LEN * number, PARAM_LEN);
    }
}

/// Adds the pages of pieces of RAM.
fn mark_pieces(pages: &mut PageSet, pieces: &[Piece])
    ensures covers { AllByRecursion (CoversPiece pages.new) pieces.now }
    ensures keeps { IsWithin pages.old pages.new }
{
    for piece in pieces {
        pages.mark(piece.addr, u64::from(piece.len));
    }
}

/// Adds the pages of a parameter's place.
fn mark_place(pages: &mut PageSet, arg: u64, place: &Place)
    ensures covers { CoversPlace arg pages.new place.now }
    ensures keeps { IsWithin pages.old pages.new }
{
    mark_param(pages, arg, u64::from(place.number));
    mark_pieces(pages, place.pieces.as_slice());
}

/// Adds the pages of the places of a call's parameters, which has its argument at an address.
pub(crate) fn mark_places(pages: &mut PageSet, arg: u64, places: &[Place])
    ensures covers { AllByRecursion (CoversPlace arg pages.new) places.now }
    ensures keeps { IsWithin pages.old pages.new }
{
    for place in places {
        mark_place(pages, arg, place);
    }
}
