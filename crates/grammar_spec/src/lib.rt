//! The statement grammar of a module text: what its rules say, as data, what that means, and the laws of it. The rules
//! are this project's own, after ECMA-262; they stand over the tokens of `module_spec`.
#![tactic(auto)]

ghost use Rattle.grammar_spec.specs.Examples.{BindingExamples, DeclarationExamples, ExpressionExamples};
ghost use Rattle.grammar_spec.specs.Examples.{StatementExamples};
ghost use Rattle.grammar_spec.specs.Laws.{OneReading, OneVerdict, PlainIsRead, SomeReading, SomeVerdict};

mod answer;
mod names;

pub use answer::Strict;
pub use names::{Context, Guard, Rule, Test};

/// What a form reads at a place is determined.
#[tactic(auto, using(crate::proofs::ReadingLaws::one_reading))]
pub fn one_reading()
    ensures { OneReading }
{}

/// A form has an outcome at each place.
#[tactic(auto, using(crate::proofs::Existence::some_reading))]
pub fn some_reading()
    ensures { SomeReading }
{}

/// A text has at most one verdict of the grammar.
#[tactic(auto, using(crate::proofs::VerdictLaws::one_verdict))]
pub fn one_verdict()
    ensures { OneVerdict }
{}

/// A text that has tokens has a verdict of the grammar.
#[tactic(auto, using(crate::proofs::VerdictLaws::some_verdict))]
pub fn some_verdict()
    ensures { SomeVerdict }
{}

/// What the plain functions give is what the grammar reads.
#[tactic(auto, using(crate::proofs::PlainReadings::plain_is_read))]
pub fn plain_is_read()
    ensures { PlainIsRead }
{}

/// Worked examples of declarations of imports and exports.
pub fn declaration_examples()
    ensures { DeclarationExamples }
{}

/// Worked examples of bindings, functions and classes.
pub fn binding_examples()
    ensures { BindingExamples }
{}

/// Worked examples of statements.
pub fn statement_examples()
    ensures { StatementExamples }
{}

/// Worked examples of expressions.
pub fn expression_examples()
    ensures { ExpressionExamples }
{}
