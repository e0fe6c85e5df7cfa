//! The layout with the fewest mappings that serves needs: definitions and their laws.
#![tactic(auto)]

ghost use Rattle.fewest_spec.specs.Laws.{ChosenFewest, OneFewest, OneFewestLayout, FewestServes, FewestOfAll, SomeFewestLayout};
ghost use Rattle.fewest_spec.specs.Laws.{OneTarget, NoTarget, FewestInAnyOrder, ValueByCases, OnePlaces, OneTargets};
ghost use Rattle.fewest_spec.specs.WorkedExamples.{FewestExamples};

/// A referrer has a URL as value where its longest place that is held has it, or none is held and the specifier is that URL.
#[tactic(auto, using(crate::proofs::Values::value_by_cases))]
pub fn value_by_cases()
    ensures { ValueByCases }
{}

/// The referrers that need a specifier have one list of places.
pub fn one_places()
    ensures { OnePlaces }
{}

/// A specifier has one list of targets.
pub fn one_targets()
    ensures { OneTargets }
{}

/// The order of the needs doesn't matter for their layout, and how often one stands among them.
pub fn fewest_in_any_order()
    ensures { FewestInAnyOrder }
{}

/// What is chosen place by place is the first of the choices with the fewest places.
pub fn chosen_fewest()
    ensures { ChosenFewest }
{}

/// A specifier has one such choice at most.
pub fn one_fewest()
    ensures { OneFewest }
{}

/// Needs have one layout with the fewest mappings at most.
pub fn one_fewest_layout()
    ensures { OneFewestLayout }
{}

/// It captures no need, and each of its mappings is that of a need.
pub fn fewest_serves()
    ensures { FewestServes }
{}

/// No map without keys that end in `/` serves with fewer mappings.
pub fn fewest_of_all()
    ensures { FewestOfAll }
{}

/// Needs without a clash have such a layout.
pub fn some_fewest_layout()
    ensures { SomeFewestLayout }
{}

/// Worked examples.
pub fn fewest_examples()
    ensures { FewestExamples }
{}

/// One target stands at the top level.
pub fn one_target()
    ensures { OneTarget }
{}

/// Where no need wants a mapping there is none.
pub fn no_target()
    ensures { NoTarget }
{}
