//! What an import map doesn't serve: the needs that HTML's resolution through it doesn't lead to their targets.
//!
//! Definitions and laws alone: each function here is empty, and its contract is a law.
#![tactic(auto)]

ghost use Rattle.check_spec.specs.Laws.{DifferencesAreExact, DifferencesAscend, SpecifiersAgree};

/// What a need gets is what each specifier gets that its referrer may ask it with.
#[tactic(auto, using(crate::proofs::NeedLemmas::specifiers_agree))]
pub fn specifiers_agree()
    ensures { SpecifiersAgree }
{}

/// There is a difference for each need that isn't served, with what it gets instead, and no other.
pub fn differences_are_exact()
    ensures { DifferencesAreExact }
{}

/// The differences stand in the order of their needs, at most one for each.
pub fn differences_ascend()
    ensures { DifferencesAscend }
{}
