//! Puts one layer to work on a file, and prints what came of it: it shows how long that takes. Its words are the name of
//! a layer, the name of a file and for `resolve` a number of rounds; or a task of an arena and how often it is done; or
//! `each` and a file with such words in its lines.
#![tactic(auto)]

mod arenas;
mod counted;
mod grammar;
mod outlines;
mod packages;
mod pages;
mod plain;
mod tokens;
mod values;

use std::alloc::{AllocError, Global};
use std::rt::Runtime;
use std::{env, fs, io};

/// What a layer says of a file; where there is no layer of this name, what an arena comes to, whose task it names.
fn measure<R: Runtime + AllocGlobal>(
    rt: &R,
    layer: &str,
    name: &String,
    rounds: u64,
) -> io::Result<()> {
    match layer {
        "tokens" => tokens::tell(rt, name),
        "outline" => outlines::tell(rt, name),
        "strict" => grammar::tell(rt, name),
        "values" => values::tell(rt, name),
        "pieces" => pages::tell_pieces(rt, name),
        "inject" => pages::tell_injected(rt, name),
        "resolve" => packages::tell(rt, name, rounds),
        task => arenas::tell(rt, task, name.as_str()),
    }
}

fn text_of(alloc: Global, text: &str) -> Result<String, AllocError> {
    let mut copy = String::with_capacity(alloc, text.len())?;
    copy.push_str(text)?;
    Ok(copy)
}

/// The same of each line, which names both.
fn measure_each<R: Runtime + AllocGlobal>(rt: &R, name: &str) -> io::Result<()> {
    let lines = fs::read_to_string(rt, name)?;
    for line in lines.as_str().lines() {
        if let Some((layer, file)) = line.split_once(' ') {
            let file = text_of(rt.alloc(), file)?;
            measure(rt, layer, &file, 1)?;
        }
    }
    Ok(())
}

/// The number of rounds that a word says: one where there is no word, or no number.
fn rounds_of(word: Option<String>) -> u64 {
    match word {
        None => 1,
        Some(word) => word.as_str().parse::<u64>().unwrap_or(1),
    }
}

fn main(rt: HostRuntime) -> io::Result<()> {
    let mut words = env::args(&rt)?;
    words.next();
    let (Some(layer), Some(name)) = (words.next(), words.next()) else {
        return Ok(());
    };
    if layer.as_str() == "each" {
        return measure_each(&rt, name.as_str());
    }
    measure(&rt, layer.as_str(), &name, rounds_of(words.next()))
}
