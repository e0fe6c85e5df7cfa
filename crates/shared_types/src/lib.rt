//! The types that every layer shares: texts seen as their bytes, lists, want of memory, and a counter of steps.
#![tactic(auto)]

mod listed;
mod short;
mod step_count;
mod text;

pub use listed::Listed;
pub use step_count::Steps;
pub use text::Text;

/// Want of memory: an allocation that was refused, or a count or a length that the number kept for it can't hold.
pub type Memory = std::alloc::AllocError;

/// A list of bytes, as the content of a file.
pub type Bytes = Listed<u8>;
