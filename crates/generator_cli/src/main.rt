//! The program: it makes the folder, the streams, the counter and the words, and leaves every decision to `run`, but
//! the one where there is no memory for the words. On standard error it tells what failed on the disk, and why, and what is
//! wrong with words that aren't plain.
#![tactic(auto)]

ghost use Rattle.std.specs.Prelude.{◌≡◌, ◌<◌, ℕ};

mod unplain;

use disk_devices::{DiskFolder, StdSink, StdSource};
use generator_core::{Unwatched, run};
use run_texts::{BAD_WORDS, MEMORY, WRITE_FAULT, memory_line};
use shared_types::Steps;
use std::marker::Brand;
use std::process::ExitCode;
use std::rt::Runtime;
use std::sync::ledger::{Blank, Ledger};
use std::{env, io};
use tree_model::Sink;
use unplain::why_not_plain;

/// The words after the program's name.
fn words_of<R: Runtime + AllocGlobal>(rt: &R) -> io::Result<Vec<String>> {
    let mut words = env::args(rt)?;
    words.next();
    Ok(words.collect(rt.alloc())?)
}

/// The status of a run with these words in the current folder.
fn start<R: Runtime + AllocGlobal, L: Ledger>(rt: &R, words: &[String], blank: Blank) -> u8
    requires name { blank.name ≡ L.name }
    requires parts { blank.parts ≡ L.parts }
    requires some { 0 < blank.parts }
{
    let mut folder = DiskFolder::new(rt, rt.alloc(), ".");
    let mut input = StdSource::new(rt.reader());
    let mut output = StdSink::new(io::writer(rt));
    let mut steps = Steps::<L>::start(blank);
    let status = run(
        rt.alloc(),
        words,
        &mut folder,
        &mut input,
        &mut output,
        &mut Unwatched,
        &mut steps,
    );
    if let Some(trouble) = folder.trouble() {
        // The status tells of the fault also where nothing can be said of it.
        let _ = eprintln!(rt; "salimgub: {trouble}");
    }
    if status == BAD_WORDS
        && let Some((what, word)) = why_not_plain(rt.alloc(), words)
    {
        let _ = eprintln!(rt; "salimgub: {what}: {word:?}");
    }
    status
}

/// The status where the words find no memory.
fn without_memory<R: Runtime>(rt: &R) -> u8 {
    match StdSink::new(io::writer(rt)).give(memory_line()) {
        Ok(()) => MEMORY,
        Err(_) => WRITE_FAULT,
    }
}

fn main(rt: HostRuntime) -> ExitCode {
    // Words that can't be read, as those that aren't UTF-8, are none.
    let words = match words_of(&rt) {
        Ok(words) => words,
        Err(error) if error.kind() == io::ErrorKind::OutOfMemory => {
            return ExitCode::from(without_memory(&rt));
        }
        Err(_) => Vec::new(rt.alloc()),
    };
    ExitCode::from(start::<HostRuntime, Brand>(&rt, words.as_slice(), Blank::new(1)))
}
