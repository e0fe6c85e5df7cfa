//! A tree that is stated for each number: packages each of which needs the next one, in a folder in memory.
//!
//! `tree_of` is the definition's tree, whatever the number.
#![tactic(auto)]

mod packages;
mod put;
mod sure_folder;

pub use packages::tree_of;
pub use sure_folder::SureFolder;
