//! The tokens of a module text as the statement grammar sees them: [`spots_of`] keeps what its rules ask of each.
#![tactic(auto)]

mod making;
mod reading;
mod words;

pub use making::spot_of;
pub use reading::spots_of;
