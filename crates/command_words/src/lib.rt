//! The words of a command line: the command that they ask for with its options and entries, or why there is none.
//!
//! `order_of` stands on plain words alone: all other words are refused before anything is looked at.
#![tactic(auto)]

mod fault;
mod order;
mod settings;

pub use fault::WordsFault;
pub use order::{Order, Wanted, order_of};
pub use settings::Settings;
