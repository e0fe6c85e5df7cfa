//! What a module text is made of and what it asks for: definitions and their laws. The tokens of ECMA-262; the forms
//! of its import and export declarations; and the values of their module specifiers.
#![tactic(auto)]

ghost use Rattle.module_spec.specs.Examples.{ManyExamples, OutlineExamples, TokenExamples};
ghost use Rattle.module_spec.specs.Examples.{ReadingExamples, ValueExamples};
ghost use Rattle.module_spec.specs.Laws.{CurlyPartners, DepthCounts, FormsAreProductions, OneOutline};
ghost use Rattle.module_spec.specs.Laws.{CallsAreFound, CallsAreImportCalls, DeclarationsStay};
ghost use Rattle.module_spec.specs.Laws.{OneKindOfRequest, SameWithoutCalls};
ghost use Rattle.module_spec.specs.Laws.{OnePartner, OneReach, OneTokens, OutlineIsRead, TokensStand};

mod request;
mod token;

pub use request::{ModuleFault, Request};
pub use token::{Bracket, Kind, LexFault, LexKind, Mark, Sort, Token, Word};

/// A text has at most one list of tokens or one first fault, and not both.
#[tactic(auto, using(crate::proofs::TokenLaws::one_tokens))]
pub fn one_tokens()
    ensures { OneTokens }
{}

/// The tokens that stand before a rest of a text are the only ones.
#[tactic(auto, using(crate::proofs::TokenLaws::one_reach))]
pub fn one_reach()
    ensures { OneReach }
{}

/// Each token of a text is a slice of it, and begins and ends between characters.
#[tactic(auto, using(crate::proofs::SpanLemmas::tokens_stand))]
pub fn tokens_stand()
    ensures { TokensStand }
{}

/// The open brackets behind some tokens are those that were opened and not closed.
#[tactic(auto, using(crate::proofs::BracketLaws::depth_counts))]
pub fn depth_counts()
    ensures { DepthCounts }
{}

/// A closing token has at most one partner.
pub fn one_partner()
    ensures { OnePartner }
{}

/// The partner of a `{` is the first token behind which no more brackets are open than before it.
#[tactic(auto, using(crate::proofs::BracketLaws::curly_partners))]
pub fn curly_partners()
    ensures { CurlyPartners }
{}

/// The forms of import and export declarations are exactly the productions.
pub fn forms_are_productions()
    ensures { FormsAreProductions }
{}

/// The strings of import calls are those that stand in one.
#[tactic(auto, using(crate::proofs::CallLaws::calls_are_import_calls))]
pub fn calls_are_import_calls()
    ensures { CallsAreImportCalls }
{}

/// Each request of a declaration, and each word without a form, is found as if there were no import calls.
#[tactic(auto, using(crate::proofs::CallLaws::declarations_stay))]
pub fn declarations_stay()
    ensures { DeclarationsStay }
{}

/// Where each word has a form, all import calls are found, in their order.
#[tactic(auto, using(crate::proofs::CallLaws::calls_are_found))]
pub fn calls_are_found()
    ensures { CallsAreFound }
{}

/// Without an import call of a string, a text has the outline of its declarations.
#[tactic(auto, using(crate::proofs::CallLaws::same_without_calls))]
pub fn same_without_calls()
    ensures { SameWithoutCalls }
{}

/// A string is a declaration's module specifier or an import call's, and not both.
#[tactic(auto, using(crate::proofs::CallLaws::one_kind_of_request))]
pub fn one_kind_of_request()
    ensures { OneKindOfRequest }
{}

/// A text has at most one outline or one first fault, and not both.
#[tactic(auto, using(crate::proofs::OutlineLaws::one_outline))]
pub fn one_outline()
    ensures { OneOutline }
{}

/// The outline of a text, or its first fault, is what the function reads.
#[tactic(auto, using(crate::proofs::OutlineReadings::outline_is_read))]
pub fn outline_is_read()
    ensures { OutlineIsRead }
{}

/// Worked examples of tokens.
#[tactic(auto, using(crate::proofs::examples::TokenExamples::token_examples))]
pub fn token_examples()
    ensures { TokenExamples }
{}

/// Worked examples of values of string literals.
#[tactic(auto, using(crate::proofs::examples::OutlineExamples::value_examples))]
pub fn value_examples()
    ensures { ValueExamples }
{}

/// Worked examples of outlines.
#[tactic(auto, using(crate::proofs::examples::OutlineExamples::outline_examples))]
pub fn outline_examples()
    ensures { OutlineExamples }
{}

/// Worked examples of whole texts.
#[tactic(auto, using(crate::proofs::examples::ReadingExamples::reading_examples))]
pub fn reading_examples()
    ensures { ReadingExamples }
{}

/// Worked examples at the limit of requests.
pub fn many_examples()
    ensures { ManyExamples }
{}
