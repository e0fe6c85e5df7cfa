//! Tries rows over the layers that read commands and projects, each typed by hand from the rules that its layer follows.
#![tactic(auto)]

mod commands;
mod configs;
mod projects;
mod words;

use crate::commands::Commands;
use row_texts::try_file;
use std::io;
use std::rt::Runtime;

/// Tries the rows of a file. It writes those that come to something else, and how many there are.
pub fn try_commands<R: Runtime + AllocGlobal>(rt: &R, name: &str) -> io::Result<()> {
    try_file(rt, &mut Commands, name)
}
