//! The source of a module: whether a file is one by its format, and then, in the same question, what its text asks
//! for.
#![tactic(auto)]

mod reading;
mod source;

pub use reading::module_source;
pub use source::{NoSource, Source};
