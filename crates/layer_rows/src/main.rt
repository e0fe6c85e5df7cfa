//! Tries rows over single layers. Its words are the files of the rows, each in a folder that says which layers are asked,
//! and `looks`. For each file it writes the rows that come to something else, and how many there are.
#![tactic(auto)]

use command_rows::try_commands;
use package_rows::{tell_looks, try_packages};
use std::marker::Brand;
use std::rt::Runtime;
use std::sync::ledger::Blank;
use std::{env, io};
use text_rows::try_texts;

// Tries the rows of a file, or tells what looks come to.
fn try_word<R: Runtime + AllocGlobal>(rt: &R, word: &String) -> io::Result<()> {
    match word.as_str().split_once('/') {
        Some(("texts", _)) => try_texts::<R, Brand>(rt, word, Blank::new(1)),
        Some(("packages", _)) => try_packages::<R, Brand>(rt, word, Blank::new(1)),
        Some(("commands", _)) => try_commands(rt, word.as_str()),
        None if word.as_str() == "looks" => tell_looks(rt),
        _ => Err(io::Error::other("a word names no rows")),
    }
}

fn main(rt: HostRuntime) -> io::Result<()> {
    let mut words = env::args(&rt)?;
    words.next();
    for word in words {
        try_word(&rt, &word)?;
    }
    Ok(())
}
