//! Needs in order, and the places of those for one specifier, each with the place above it and what its own need wants.
#![tactic(auto)]

mod build;
mod nodes;
mod rows;

pub use build::{nodes_of, number_of};
pub use nodes::{Node, node_at};
pub use rows::{Row, rows_in_order};
