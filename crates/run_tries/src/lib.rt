//! Tries the runs of rows over folders in memory, each with what must come of it. docs/architecture.md describes the
//! form of the rows.
#![tactic(auto)]

mod again;
mod ending;
mod endless;
mod outcome;
mod repeating;
mod trying;

pub use ending::endings;
pub use endless::endless_line;
pub use trying::{Tried, try_lines};
