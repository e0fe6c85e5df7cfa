//! The tree over which `measure` generates.
//!
//! Definitions and laws alone: each function here is empty, and its contract is a law.
#![tactic(auto)]

ghost use Rattle.workload_spec.specs.Laws.{PlacedIsPut};
ghost use Rattle.workload_spec.specs.WorkedExamples.{WorkedExamples};

/// A file that is placed in a tree is put there, with the folders above it.
#[tactic(auto, using(crate::proofs::PutFiles::placed_is_put))]
pub fn placed_is_put()
    ensures { PlacedIsPut }
{}

/// Worked examples.
#[tactic(auto, using(crate::proofs::WorkedExamples::worked_examples))]
pub fn worked_examples()
    ensures { WorkedExamples }
{}
