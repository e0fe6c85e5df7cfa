//! Which needs, as those of a trace, an import map doesn't serve: `check_map`.
#![tactic(auto)]

mod check;
mod difference;

pub use check::check_map;
pub use difference::{Difference, Differences, Got};
