//! The tokens of a module text one by one, by ECMA-262's lexical grammar: [`Lexer::next`] gives them in their order,
//! and then that the text ends, or its first fault. Each byte is read once, and no call but [`Lexer::new`] takes
//! memory.
#![tactic(auto)]

ghost use Rattle.es_lexer.specs.Again.{SameFaultAgain};
ghost use Rattle.es_lexer.specs.Outcomes.{SomeTokens};

mod characters;
mod lexer;
mod look;
mod names;
mod pieces;
mod punctuators;
mod sorts;
mod spellings;
mod state;
mod whole;

pub use characters::begins_line_end;
pub use lexer::Lexer;
pub use module_spec::{Kind, LexFault, LexKind, Token};
pub use whole::{TokensFault, tokens_of};

/// A reader that answered a fault answers it again at each later call.
pub fn same_fault_again()
    ensures { SameFaultAgain }
{}

/// A text has a list of tokens or a first fault.
pub fn some_tokens()
    ensures { SomeTokens }
{}
