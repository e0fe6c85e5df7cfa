//! The layout with the fewest mappings that serves needs.
#![tactic(auto)]

mod choose;
mod costs;
mod count;
mod fault;
mod fewest;
mod group;
mod laid;
mod one;
mod penalty;
mod settle;
mod some;

pub use count::mappings;
pub use fault::LayoutFault;
pub use fewest::layout;
