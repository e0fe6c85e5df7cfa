//! The program's words as the kit's `clap` sees them: its commands and arguments, and what its matches hold.
//!
//! Definitions and laws alone: each function here is empty, and its contract is a law.
#![tactic(auto)]

ghost use Rattle.words_clap_spec.specs.Laws.{HelpIsAskedFor, PlainWordsAreHeld, PlainWordsPass, ProgramIsSimple};

/// `clap` says exactly what it finds in this program's words, and why it refuses some.
#[tactic(auto, using(crate::proofs::PlainWords::program_is_simple))]
pub fn program_is_simple()
    ensures { ProgramIsSimple }
{}

/// `clap` takes plain words.
#[tactic(auto, using(crate::proofs::PlainWords::plain_words_pass))]
pub fn plain_words_pass()
    ensures { PlainWordsPass }
{}

/// For plain words the matches hold exactly what they ask for.
#[tactic(auto, using(crate::proofs::PlainWords::plain_words_are_held))]
pub fn plain_words_are_held()
    ensures { PlainWordsAreHeld }
{}

/// Help is asked for by `--help`, `-h`, `help` and no words, and `clap` refuses these.
#[tactic(auto, using(crate::proofs::PlainWords::help_is_asked_for))]
pub fn help_is_asked_for()
    ensures { HelpIsAskedFor }
{}
