//! The whole program as one call: the words of the command line, a folder, an input and an output are handed to `run`,
//! which does what the words say, tells of it, and answers the exit status. A watch may be handed in too, which is shown
//! the modules of a session. A project's file is read and printed by the calls that are handed on.
#![tactic(auto)]

mod checking;
mod explaining;
mod listing;
mod measuring;
mod paths;
mod prepared;
mod project;
mod running;
mod strictness;
mod vendoring;

pub use project_file::{ProjectFault, print_project, read_project};
pub use running::run;
pub use session_watch::{MemWatch, Unwatched, Watch};
