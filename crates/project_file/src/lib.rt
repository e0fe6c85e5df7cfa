//! The file of a project: its bytes as a config, or why they give none, and the bytes of a config.
#![tactic(auto)]

mod fault;
mod lists;
mod parts;
mod printing;
mod project;
mod reading;

pub use fault::ProjectFault;
pub use printing::print_project;
pub use reading::read_project;
