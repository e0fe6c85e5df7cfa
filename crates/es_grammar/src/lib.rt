//! The strict reader of a module text: [`strict`] goes by the statement grammar's rules over the text's tokens, with a
//! stack of its own, and tells where the grammar and the text's outline differ.
#![tactic(auto)]

mod reader;
mod requests;
mod saying;
mod stack;

pub use grammar_spec::Strict;
pub use reader::{End, read};
pub use saying::strict;
