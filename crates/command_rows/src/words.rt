//! The words of a command line, each in brackets.

use row_texts::Said;
use std::alloc::{AllocError, Global};
use words_parse::{Command, LinkValues, WordsFault, parse};

/// The words of a row; None where they aren't in brackets, or there is no memory for them.
pub fn words_of(alloc: Global, row: &str) -> Option<Vec<String>> {
    if row.is_empty() {
        return Some(Vec::new(alloc));
    }
    let inner = row.strip_prefix("[")?.strip_suffix("]")?;
    match split_words(alloc, inner) {
        Ok(words) => Some(words),
        Err(_) => None,
    }
}

fn split_words(alloc: Global, inner: &str) -> Result<Vec<String>, AllocError> {
    let mut words = Vec::new(alloc);
    for word in inner.split("][") {
        words.push(String::from_str(alloc, word)?)?;
    }
    Ok(words)
}

/// Puts a value in brackets behind a text.
pub fn push_bracketed(value: &str, said: &mut Said) {
    said.push_all(&["[", value, "]"]);
}

fn push_value(name: &str, value: Option<&str>, said: &mut Said) {
    said.push(name);
    if let Some(value) = value {
        push_bracketed(value, said);
    }
}

fn push_entries(entries: &[String], said: &mut Said) {
    said.push(" entries");
    for entry in entries {
        push_bracketed(entry.as_str(), said);
    }
}

fn push_link(values: &LinkValues<'_>, entries: &[String], said: &mut Said) {
    push_value("link base", values.base, said);
    push_value(" page", values.page, said);
    push_value(" conditions", values.conditions, said);
    push_entries(entries, said);
}

fn push_unlink(entries: &[String], said: &mut Said) {
    said.push("unlink");
    push_entries(entries, said);
}

fn push_measure(number: u64, said: &mut Said) {
    said.push("measure ");
    said.push_number(number);
}

fn push_path(command: &str, path: &str, said: &mut Said) {
    said.push(command);
    push_bracketed(path, said);
}

fn push_command(command: &Command<'_>, said: &mut Said) {
    match command {
        Command::Link(values, entries) => push_link(values, entries, said),
        Command::Unlink(entries) => push_unlink(entries, said),
        Command::Refresh => said.push("refresh"),
        Command::Check => said.push("check"),
        Command::CheckStrictly => said.push("check --strict"),
        Command::List => said.push("list"),
        Command::Inject => said.push("inject"),
        Command::Session => said.push("session"),
        Command::Why(path) => push_path("why", *path, said),
        Command::Vendor(path) => push_path("vendor", *path, said),
        Command::Measure(number) => push_measure(*number, said),
    }
}

// What is told, or as much of it as is wanted where that stands in it.
fn push_told(told: &str, wanted: &str, said: &mut Said) {
    match wanted.strip_prefix("told ") {
        Some(part) if told.contains(part) => said.push(wanted),
        _ => said.push_all(&["told ", told]),
    }
}

fn push_parsed(alloc: Global, words: &[String], wanted: &str, said: &mut Said) {
    match parse(alloc, words) {
        Ok(command) => push_command(&command, said),
        Err(WordsFault::NotPlain) => said.push("not plain"),
        Err(WordsFault::Told(text)) => push_told(text.as_str(), wanted, said),
        Err(WordsFault::Memory) => said.push("memory"),
    }
}

/// The command that words ask for, `not plain`, or `told` and what `clap` says, of which a row may want a part.
pub fn tell_words(alloc: Global, row: &str, wanted: &str, said: &mut Said) {
    match words_of(alloc, row) {
        Some(words) => push_parsed(alloc, words.as_slice(), wanted, said),
        None => said.push("no words"),
    }
}
