//! The folder and the streams of the process, as the tool sees what is outside.
#![tactic(auto)]

mod disk_folder;
mod faults;
mod streams;
mod trouble;

pub use disk_folder::DiskFolder;
pub use streams::{StdSink, StdSource};
pub use trouble::Trouble;
