//! What a run of a row leaves, told apart from what it must leave: what is outside of a run, kept in memory, the output
//! and the replies in it, and where both differ. docs/architecture.md describes the form of the rows.
#![tactic(auto)]

mod comparing;
mod expected;
mod outside;
mod parts;
mod pieces;
mod replies;
mod showings;
mod watched;

pub use comparing::{compare_looks, compare_shown, differences};
pub use expected::{Ending, Expected};
pub use outside::{Outcome, Outside};
pub use parts::push_all;
pub use pieces::Pieces;
pub use replies::Replies;
pub use showings::Showings;
pub use watched::Watched;
