//! Needs, the places where a map can serve them, what serves them, and the map as it is printed: definitions and their
//! laws.
#![tactic(auto)]

ghost use Rattle.layout_spec.specs.Laws.{CountedKeeps, CountedOnce, PlacesByCases, PlacesNest, PlacesShrink};
ghost use Rattle.layout_spec.specs.Laws.{TextsArePlain, TextsReadBack};
ghost use Rattle.layout_spec.specs.Laws.{ShortByCases, ShortFormsDiffer, ShortFormsParse};
ghost use Rattle.layout_spec.specs.ShortExamples.{ShortExamples};
ghost use Rattle.layout_spec.specs.WorkedExamples.{WorkedExamples};

use shared_types::Text;

/// A need: what a map has to serve.
#[derive(Debug, Drop)]
pub struct Need {
    /// The web name of the page or module that asks.
    pub referrer: Text,
    /// The normalized specifier.
    pub asked: Text,
    /// The web name of what the specifier must lead to.
    pub target: Text,
}

/// To count each need once leaves out none and adds none.
pub fn counted_keeps()
    ensures { CountedKeeps }
{}

/// Needs that are counted stand once each.
pub fn counted_once()
    ensures { CountedOnce }
{}

/// The places of a referrer are itself, the folders above it and the top level.
pub fn places_by_cases()
    ensures { PlacesByCases }
{}

/// The places of a referrer stand longest first, each a shorter front of those before it.
#[tactic(auto, using(crate::proofs::PlaceLemmas::places_shrink))]
pub fn places_shrink()
    ensures { PlacesShrink }
{}

/// What stands behind a place of a referrer is what is above it; so the place above one is the next of the referrer's.
pub fn places_nest()
    ensures { PlacesNest }
{}

/// The short form of a URL is `./` and what it has behind the folder of the map base, where that leads back to it; and
/// else the URL itself.
pub fn short_by_cases()
    ensures { ShortByCases }
{}

/// Parsed against the map base, the short form of a URL is that URL.
pub fn short_forms_parse()
    ensures { ShortFormsParse }
{}

/// No two URLs have one short form.
#[tactic(auto, using(crate::proofs::ShortBack::short_forms_differ))]
pub fn short_forms_differ()
    ensures { ShortFormsDiffer }
{}

/// The text of a map is read as that map, where its keys and addresses stand as parsing leaves them.
#[tactic(auto, using(crate::proofs::TextBack::texts_read_back))]
pub fn texts_read_back()
    ensures { TextsReadBack }
{}

/// The text of such a map is UTF-8 and holds no `<`.
pub fn texts_are_plain()
    ensures { TextsArePlain }
{}

/// Worked examples.
#[tactic(auto, using(crate::proofs::examples::WorkedExamples::worked_examples))]
pub fn worked_examples()
    ensures { WorkedExamples }
{}

/// Worked examples of short forms.
#[tactic(auto, using(crate::proofs::examples::ShortExamples::short_examples))]
pub fn short_examples()
    ensures { ShortExamples }
{}
