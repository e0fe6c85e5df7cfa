//! How a run may end of which one allocation fails.

use crate::again::{Repeated, again_outcome};
use crate::outcome::outcome_of;
use row_files::{Change, Reader, Row, RowFault, Run};
use run_outcomes::{Ending, Expected, Outcome, Replies, differences, push_all};
use shared_types::Memory;
use std::alloc::Global;

/// The endings of all runs of a file, each on a line.
pub fn endings(alloc: Global, text: &str) -> Result<String, RowFault> {
    let mut told = String::new(alloc);
    match read_endings(alloc, text, &mut told) {
        Ok(()) => Ok(told),
        Err(fault) => Err(fault),
    }
}

fn read_endings(alloc: Global, text: &str, told: &mut String) -> Result<(), RowFault> {
    let mut reader = Reader::new(alloc)?;
    tell_all(alloc, &mut reader, text, told)
}

fn tell_all(
    alloc: Global,
    reader: &mut Reader,
    text: &str,
    told: &mut String,
) -> Result<(), RowFault> {
    for line in text.lines() {
        tell(alloc, reader.take(alloc, line), told)?;
    }
    tell(alloc, reader.end(alloc), told)
}

// The endings of the runs of a row, where one ended.
fn tell(
    alloc: Global,
    ended: Result<Option<Row>, RowFault>,
    told: &mut String,
) -> Result<(), RowFault> {
    match ended {
        Err(fault) => Err(fault),
        Ok(None) => Ok(()),
        Ok(Some(row)) => tell_row(alloc, &row, told),
    }
}

fn tell_row(alloc: Global, row: &Row, told: &mut String) -> Result<(), RowFault> {
    for run in row.runs.as_slice() {
        push_all(told, &[ending_alone(alloc, row, run)?, "\n"])?;
        if run.makes_again() {
            push_all(told, &[ending_again(alloc, row, run)?, "\n"])?;
        }
    }
    Ok(())
}

fn ending_alone(alloc: Global, row: &Row, run: &Run) -> Result<&'static str, RowFault> {
    let input = run.input.as_slice();
    let outcome = outcome_of(alloc, &row.tree, run, input, &run.fails)?;
    ending_of(alloc, row, run, &outcome)
}

// The name of an ending of the session whose edits are made again.
fn ending_again(alloc: Global, row: &Row, run: &Run) -> Result<&'static str, RowFault> {
    match again_outcome(alloc, &row.tree, run, &run.fails) {
        Err(RowFault::Memory) => Ok("again: not begun"),
        Err(fault) => Err(fault),
        Ok(repeated) => named_again(alloc, row, run, &repeated),
    }
}

fn named_again(
    alloc: Global,
    row: &Row,
    run: &Run,
    repeated: &Repeated,
) -> Result<&'static str, RowFault> {
    let ending = ending_of(alloc, row, run, &repeated.outcome)?;
    Ok(match (ending, repeated.told.repeats, repeated.told.stays) {
        ("done", 0, true) => "again: done",
        ("done", 1, true) => "again: done, an edit made again",
        ("memory", 0, true) => "again: memory",
        ("not said", 0, true) => "again: not said",
        _ => "wrong",
    })
}

// The name of an ending; "wrong" where it is none. A write for which the folder in memory finds no room fails, and so
// does a give for which the output finds none.
fn ending_of(
    alloc: Global,
    row: &Row,
    run: &Run,
    outcome: &Outcome,
) -> Result<&'static str, RowFault> {
    let ending = Ending::of(alloc, run.wanted()?)?;
    let done = ending.with(run.changes.as_slice());
    named_ending(alloc, row, outcome, is_session(run), done)
}

fn named_ending(
    alloc: Global,
    row: &Row,
    outcome: &Outcome,
    is_session: bool,
    done: Expected<'_>,
) -> Result<&'static str, RowFault> {
    if is_as(alloc, row, outcome, done)? {
        return Ok("done");
    }
    match done.said {
        Some(said) if is_session => session_ending(alloc, row, outcome, said),
        _ => command_ending(alloc, row, outcome, done.changes),
    }
}

fn is_session(run: &Run) -> bool {
    match run.words.as_slice().first() {
        Some(word) => word.as_str() == "session",
        None => false,
    }
}

fn is_as(
    alloc: Global,
    row: &Row,
    outcome: &Outcome,
    expected: Expected<'_>,
) -> Result<bool, RowFault> {
    Ok(differences(alloc, &row.tree, outcome, expected)?.is_empty())
}

// The ending of a command that isn't done.
fn command_ending(
    alloc: Global,
    row: &Row,
    outcome: &Outcome,
    changes: &[Change],
) -> Result<&'static str, RowFault> {
    let none: &[Change] = &[];
    let one = changes.get(..1).unwrap_or(changes);
    let named = [
        ("memory", ends(8, b"memory\n".as_slice(), none)),
        ("not written", ends(5, b"fault: write\n".as_slice(), none)),
        ("half written", ends(5, b"fault: write\n".as_slice(), one)),
        ("not said", ends(5, b"".as_slice(), changes)),
    ];
    for (name, expected) in &named {
        if is_as(alloc, row, outcome, *expected)? {
            return Ok(name);
        }
    }
    Ok("wrong")
}

// The ending of a session that isn't done: whole replies and then want of memory, or what was given before a give for
// which the output finds no room.
fn session_ending(
    alloc: Global,
    row: &Row,
    outcome: &Outcome,
    said: &[u8],
) -> Result<&'static str, RowFault> {
    let replies = Replies::of(alloc, said)?;
    ending_among(alloc, row, outcome, said, &replies)
}

fn ending_among(
    alloc: Global,
    row: &Row,
    outcome: &Outcome,
    said: &[u8],
    replies: &Replies,
) -> Result<&'static str, RowFault> {
    for (number, end) in replies.given().iter().enumerate() {
        let front = said.get(..*end).unwrap_or(said);
        if replies.is_whole(number) && is_memory_behind(alloc, row, outcome, front)? {
            return Ok("memory");
        }
        if is_as(alloc, row, outcome, ends(5, front, &[]))? {
            return Ok("not said");
        }
    }
    Ok("wrong")
}

// Whether memory was wanting behind what was said.
fn is_memory_behind(
    alloc: Global,
    row: &Row,
    outcome: &Outcome,
    front: &[u8],
) -> Result<bool, RowFault> {
    let said = with_memory(alloc, front)?;
    is_as(alloc, row, outcome, ends(8, said.as_slice(), &[]))
}

fn with_memory(alloc: Global, front: &[u8]) -> Result<Vec<u8>, Memory> {
    let mut said = Vec::from_slice(alloc, front)?;
    said.extend_from_slice(b"memory\n".as_slice())?;
    Ok(said)
}

fn ends<'a>(status: u8, said: &'a [u8], changes: &'a [Change]) -> Expected<'a> {
    Expected {
        status,
        said: Some(said),
        changes,
    }
}
