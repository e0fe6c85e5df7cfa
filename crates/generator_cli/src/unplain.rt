//! What is wrong with words that can be read and have no meaning.
use std::alloc::Global;
use words_parse::{WordsFault, parse};

/// What is wrong with these words, where they are refused as not plain; None where they are taken, or refused with a
/// text that says it already. The first word that is wrong is told, as one meets it from the left.
pub fn why_not_plain(alloc: Global, words: &[String]) -> Option<(&'static str, &str)> {
    match parse(alloc, words) {
        Err(WordsFault::NotPlain) => first_wrong(words),
        _ => None,
    }
}

fn first_wrong(words: &[String]) -> Option<(&'static str, &str)> {
    let (command, rest) = words.split_first()?;
    if command.as_str() == "measure" {
        let number = rest.first()?;
        return Some((
            "no number from 1 to 2000 without leading zeros",
            number.as_str(),
        ));
    }
    let mut before = Before::Nothing;
    for word in rest {
        match wrong(before, word.as_str()) {
            Err(what) => return Some((what, word.as_str())),
            Ok(now) => before = now,
        }
    }
    None
}

/// What stands before a word.
#[derive(Clone, Copy, PartialEq, Eq)]
enum Before {
    /// Nothing, or options with their values.
    Nothing,
    /// An option whose value is this word.
    Option,
    /// An entry.
    Entry,
}

/// What is wrong with a word behind others, or else what stands before the next one.
fn wrong(before: Before, word: &str) -> Result<Before, &'static str> {
    if before == Before::Option {
        return value(word);
    }
    if word.is_empty() {
        return Err("an entry is empty");
    }
    if word == "--" {
        return Err("this word has no meaning");
    }
    match word.strip_prefix("--") {
        Some(_) if before == Before::Entry => Err("an option stands behind an entry"),
        Some(option) => match option.split_once('=') {
            Some((_, text)) => value(text),
            None => Ok(Before::Option),
        },
        None if word.starts_with('-') => Err("an entry begins with a hyphen"),
        None => Ok(Before::Entry),
    }
}

fn value(text: &str) -> Result<Before, &'static str> {
    match text.as_bytes().first() {
        None => Err("the value of an option is empty"),
        Some(b'-') => Err("the value of an option begins with a hyphen"),
        Some(_) => Ok(Before::Nothing),
    }
}
