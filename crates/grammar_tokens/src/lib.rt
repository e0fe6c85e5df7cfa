//! The tokens of a text as the statement grammar sees them, with what its rules ask of one: [`Tokens::quoted`],
//! [`Tokens::passes`] and [`Tokens::holds`] answer as the grammar's tests and guards do.
#![tactic(auto)]

mod arrows;
mod guards;
mod spot;
mod tokens;

pub use spot::Spot;
pub use tokens::Tokens;
