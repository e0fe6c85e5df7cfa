//! Lines that put a file or a folder into a tree.

use crate::fault::{RowFault, malformed};

/// The path and the text of a line, as they are written.
#[derive(Clone, Copy)]
pub enum Written<'a> {
    /// `PATH: TEXT`
    Text(&'a str, &'a str),
    /// `PATH:`, with a block below or without one.
    Block(&'a str),
    /// `PATH = NAME`
    Named(&'a str, &'a str),
    /// `PATH ...`
    Untold(&'a str),
    /// `PATH/`
    Folder(&'a str),
}

/// Reads a line of a tree.
pub fn written_of(line: &str) -> Result<Written<'_>, RowFault> {
    if let Some((path, text)) = line.split_once(": ") {
        Ok(Written::Text(path, text))
    } else if let Some(path) = line.strip_suffix(':') {
        Ok(Written::Block(path))
    } else if let Some((path, name)) = line.split_once(" = ") {
        Ok(Written::Named(path, name))
    } else if let Some(path) = line.strip_suffix(" ...") {
        Ok(Written::Untold(path))
    } else if let Some(path) = line.strip_suffix('/') {
        Ok(Written::Folder(path))
    } else {
        Err(malformed("a line is no file and no folder"))
    }
}

/// Whether a line says nothing: it is empty or a comment.
pub fn is_nothing(line: &str) -> bool {
    line.is_empty() || line == "--" || line.starts_with("-- ")
}
