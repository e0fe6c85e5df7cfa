//! What the words of a command line ask for, or what is to be said of them.
//!
//! The kit's `clap` judges the words: `matches` gives what it makes of them, and its builder is called in `program` and
//! nowhere else. `read` gives the values, which are those that `clap` holds; it borrows from the words and takes no
//! memory.
#![tactic(auto)]

mod command;
mod help;
mod link;
mod matching;
mod number;
mod program;
mod reader;
mod spelling;
mod values;

ghost use Rattle.std.specs.Prelude.{◌≡◌, ◌≢◌, MatchResult, map, string_bytes};
ghost use Rattle.clap.specs.Words.{kind_of};
ghost use Rattle.words_parse.specs.Explaining.{Explains};
ghost use Rattle.words_parse.specs.Shown.{shown};
ghost use Rattle.words_spec.specs.PlainWords.{Asked, Asks};

use clap::Error;
use clap::error::ErrorKind;
pub use command::{Command, LinkValues};
pub use matching::matches;
pub use reader::read;
use std::alloc::Global;
use std::fmt::Write;

/// Why words ask for nothing.
#[derive(Debug, Drop)]
pub enum WordsFault {
    /// `clap` has this to say: what is wrong with them, or the help that they ask for.
    Told(String),
    /// `clap` takes them, but they aren't plain.
    NotPlain,
    /// Want of memory.
    Memory,
}

/// What the words ask for.
#[tactic(auto, using(crate::proofs::Explained::explained))]
pub fn parse<'a>(alloc: Global, words: &'a [String]) -> Result<Command<'a>, WordsFault>
    ensures plain { (asked : Asked) → Asks (map string_bytes words.now) asked
        → MatchResult result (λ command. shown command ≡ asked) (λ fault. fault ≡ WordsFault.Memory) }
    ensures asks { MatchResult result (λ command. Asks (map string_bytes words.now) (shown command))
        (Explains (map string_bytes words.now)) }
{
    match matches(alloc, words) {
        Err(error) => Err(fault_from(alloc, &error)),
        Ok(_) => match read(words) {
            Some(command) => Ok(command),
            None => Err(WordsFault::NotPlain),
        },
    }
}

fn fault_from(alloc: Global, error: &Error) -> WordsFault
    ensures memory { kind_of error.now ≡ ErrorKind.OutOfMemory → result ≡ WordsFault.Memory }
    ensures told { result ≢ WordsFault.NotPlain }
{
    match error.kind() {
        ErrorKind::OutOfMemory => WordsFault::Memory,
        _ => told(alloc, error),
    }
}

fn told(alloc: Global, error: &Error) -> WordsFault
    ensures { result ≢ WordsFault.NotPlain }
{
    let mut text = String::new(alloc);
    match write!(text, "{error}") {
        Ok(()) => WordsFault::Told(text),
        Err(_) => WordsFault::Memory,
    }
}
