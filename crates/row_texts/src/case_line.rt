//! The lines of a file of cases.

use crate::written::is_nothing;

/// What a line says.
#[derive(Clone, Copy)]
pub(crate) enum CaseLine<'a> {
    Nothing,
    /// A new tree.
    Row,
    /// Which layer is asked, and what it needs beside the questions.
    Ask(&'a str),
    /// The text that a layer is given.
    Given(&'a str),
    /// A file with its text, or a folder.
    Entry(&'a str),
    /// The tree of a package: its record, and the names of its files.
    Package(&'a str),
    /// A question and its answer.
    Case(&'a str),
    /// None of these.
    Unknown,
}

/// Reads what a line begins with.
pub(crate) fn case_line_of(line: &str) -> CaseLine<'_> {
    if is_nothing(line) {
        CaseLine::Nothing
    } else if line.starts_with('/') {
        CaseLine::Entry(line)
    } else if let Some((mark, rest)) = line.split_once(' ') {
        marked(mark, rest)
    } else {
        CaseLine::Unknown
    }
}

fn marked<'a>(mark: &'a str, rest: &'a str) -> CaseLine<'a> {
    match mark {
        "?" => CaseLine::Case(rest),
        "<" => CaseLine::Given(rest),
        "ask" => CaseLine::Ask(rest),
        "package" => CaseLine::Package(rest),
        "row" => CaseLine::Row,
        _ => CaseLine::Unknown,
    }
}
