//! The needs of a trace in first-seen order, no two of them with one referrer and one specifier.
#![tactic(auto)]

mod asking;
mod needs;

pub use layout_spec::Need;
pub use needs::{Added, NeedFault, Needs};
