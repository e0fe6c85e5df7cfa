//! What is replied to the lines of a session, over whoever makes its edits: `converse` reads line by line, replies
//! before it takes more, and ends with the session's exit status.
#![tactic(auto)]

mod editor;
mod talk;

pub use editor::{Editor, EditorFault};
pub use talk::converse;
