//! The words of a command line: which of them are plain, and what plain words ask for.
//!
//! Definitions and laws alone: each function here is empty, and its contract is a law.
#![tactic(auto)]

ghost use Rattle.words_spec.specs.Laws.{OneAsked, ReadingIsExact};

/// An option of `link`.
#[derive(Debug, Clone, Copy, PartialEq, Eq)]
pub enum LinkOption {
    /// `--base`
    Base,
    /// `--page`
    Page,
    /// `--conditions`
    Conditions,
}

/// Plain words ask for one thing.
#[tactic(auto, using(crate::proofs::PlainIsRead::one_asked))]
pub fn one_asked()
    ensures { OneAsked }
{}

/// Reading words from the first to the last gives what plain words ask for, and nothing for all others.
#[tactic(auto, using(crate::proofs::ReadIsPlain::reading_is_exact))]
pub fn reading_is_exact()
    ensures { ReadingIsExact }
{}
