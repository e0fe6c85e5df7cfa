//! A session on the project of a folder: `session` opens it, says what is generated, replies to the lines of the input,
//! and answers the exit status.
#![tactic(auto)]

mod edits;
mod session_editor;
mod sessions;

pub use sessions::session;
