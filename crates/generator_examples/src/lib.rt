//! Worked examples of generation: small sites, with their traces, their maps and how commands on them end, typed by
//! hand.
#![tactic(auto)]

ghost use Rattle.generator_examples.specs.Examples.{WorkedExamples};

/// The sites are trees, and have the traces, the maps and the ends that are written beside them.
#[tactic(auto, using(crate::proofs::WorkedExamples::worked_examples))]
pub fn worked_examples()
    ensures { WorkedExamples }
{}
