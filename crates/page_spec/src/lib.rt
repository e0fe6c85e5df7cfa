//! Pages of HTML as a scanner sees them: their pieces, the attributes of start tags, import map elements, and how a
//! map is put into a page.
//!
//! Definitions and laws alone: each function here is empty, and its contract is a law.
#![tactic(auto)]

ghost use Rattle.page_spec.specs.Examples.{WorkedExamples};
ghost use Rattle.page_spec.specs.Laws.{OnePieces, SomePieces, PiecesCover, PiecesAreUtf8, PiecesEndAtBoundaries};
ghost use Rattle.page_spec.specs.Laws.{ValuesStandInTags, ValuesEndAtBoundaries, OneInjection, SomeInjection};
ghost use Rattle.page_spec.specs.Laws.{TakesOrKeepsOut, InjectedPieces, OneMapAfter, SamePageAgain, InjectedIsUtf8};

mod kinds;

pub use kinds::{InjectFault, Piece, PieceKind, RawElement, State};

/// A page is cut into pieces in one way.
pub fn one_pieces()
    ensures { OnePieces }
{}

/// Each page has its pieces.
pub fn some_pieces()
    ensures { SomePieces }
{}

/// The pieces follow each other and cover the page.
pub fn pieces_cover()
    ensures { PiecesCover }
{}

/// No piece begins or ends within a character.
pub fn pieces_are_utf8()
    ensures { PiecesAreUtf8 }
{}

/// No character is cut at the places of a piece.
pub fn pieces_end_at_boundaries()
    ensures { PiecesEndAtBoundaries }
{}

/// An attribute's value stands in its tag.
pub fn values_stand_in_tags()
    ensures { ValuesStandInTags }
{}

/// No character is cut at the places of an attribute's value.
pub fn values_end_at_boundaries()
    ensures { ValuesEndAtBoundaries }
{}

/// What comes of a map and a page is one page, or one fault.
pub fn one_injection()
    ensures { OneInjection }
{}

/// Something comes of each map and page.
pub fn some_injection()
    ensures { SomeInjection }
{}

/// A page takes each map, or keeps each out for one fault, which is no want of memory.
pub fn takes_or_keeps_out()
    ensures { TakesOrKeepsOut }
{}

/// The pieces of a page are as before when a map is put into it, but for the map.
pub fn injected_pieces()
    ensures { InjectedPieces }
{}

/// A page into which a map was put has one import map element, and the map is its raw text.
pub fn one_map_after()
    ensures { OneMapAfter }
{}

/// A map that is put into a page again changes nothing.
pub fn same_page_again()
    ensures { SamePageAgain }
{}

/// A page into which a map was put is UTF-8.
pub fn injected_is_utf8()
    ensures { InjectedIsUtf8 }
{}

/// Worked examples.
pub fn worked_examples()
    ensures { WorkedExamples }
{}
