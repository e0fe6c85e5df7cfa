//! HTML's import maps: which map a text has, and what a specifier resolves to through a map.
//!
//! Definitions and laws alone: each function here is empty, and its contract is a law.
#![tactic(auto)]

ghost use Rattle.import_map_spec.specs.WorkedExamples.{WorkedExamples};
ghost use Rattle.import_map_spec.specs.Laws.{KeyOrder, OneMap, ParsedMapsAreNormal, ResolvesByCases, SameQuestion};
ghost use Rattle.import_map_spec.specs.Laws.{SomeMap};

/// What must be an object in the text of an import map.
#[derive(Clone, Copy, Debug, PartialEq, Eq)]
pub enum MapPart {
    /// The whole text.
    Top,
    /// The member `imports`.
    Imports,
    /// The member `scopes`.
    Scopes,
    /// A member of `scopes`.
    Scope,
    /// The member `integrity`.
    Integrity,
}

/// A text has at most one map, or one first fault.
#[tactic(auto, using(crate::proofs::OneMap::one_map))]
pub fn one_map()
    ensures { OneMap }
{}

/// A text has a map or a first fault.
#[tactic(auto, using(crate::proofs::OneMap::some_map))]
pub fn some_map()
    ensures { SomeMap }
{}

/// In a parsed map each key of a module specifier map is normalized and isn't empty, and addresses, the keys of scopes
/// and those of the integrity are URLs.
pub fn parsed_maps_are_normal()
    ensures { ParsedMapsAreNormal }
{}

/// What look-ups come to is what the cases of resolution say: of the keys that apply the longest answers.
#[tactic(auto, using(crate::proofs::ResolvesByCases::resolves_by_cases))]
pub fn resolves_by_cases()
    ensures { ResolvesByCases }
{}

/// Two specifiers that are no URLs and that normalize alike have one answer, in every map.
#[tactic(auto, using(crate::proofs::SameQuestion::same_question))]
pub fn same_question()
    ensures { SameQuestion }
{}

/// Of the keys that match the longest one answers, and of the scopes that apply the longest one that has an answer.
#[tactic(auto, using(crate::proofs::LongestKey::key_order))]
pub fn key_order()
    ensures { KeyOrder }
{}

/// Worked examples.
#[tactic(auto, using(crate::proofs::examples::WorkedExamples::worked_examples))]
pub fn worked_examples()
    ensures { WorkedExamples }
{}
