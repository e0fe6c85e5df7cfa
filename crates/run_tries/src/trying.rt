//! Tries rows.

use crate::again::{Repeated, again_outcome};
use crate::outcome::outcome_of;
use crate::repeating::Told;
use row_files::{
    Call, Change, Cut, Differences, Fails, Reader, Report, Row, RowFault, Run, Tree, Turns,
};
use run_outcomes::{
    Ending, Expected, Outcome, compare_looks, compare_shown, differences, push_all,
};
use shared_types::Memory;
use std::alloc::Global;

/// The runs of a file that were tried, and what is told of those that ended otherwise.
#[derive(Drop)]
pub struct Tried {
    name: String,
    report: Report,
    told: String,
    line: u64,
}

/// A run over a tree, in which calls fail or a file or the input is cut.
#[derive(Clone, Copy)]
struct Trial<'a> {
    row: &'a Row,
    run: &'a Run,
    tree: &'a Tree,
    input: &'a [u8],
    fails: &'a Fails,
    /// What tells it from the run itself.
    apart: &'a str,
}

impl Tried {
    pub fn new(alloc: Global, name: &str) -> Result<Tried, Memory> {
        Ok(Tried {
            name: String::from_str(alloc, name)?,
            report: Report::new(),
            told: String::new(alloc),
            line: 0,
        })
    }

    pub fn report(&self) -> &Report {
        &self.report
    }

    /// What is told of the runs that ended otherwise.
    pub fn told(&self) -> &str {
        self.told.as_str()
    }

    /// The line that is at fault where a row can't be read or tried.
    pub fn line(&self) -> u64 {
        self.line
    }

    // Counts a trial, and tells where it differs.
    fn count(
        &mut self,
        alloc: Global,
        trial: Trial<'_>,
        found: &Differences,
    ) -> Result<(), Memory> {
        self.report.count(found.is_empty());
        if found.is_empty() {
            return Ok(());
        }
        self.push_place(alloc, trial.run.line)?;
        push_all(&mut self.told, &[trial.row.title.as_str(), ":"])?;
        self.push_words(trial.run.words.as_slice())?;
        push_all(&mut self.told, &[trial.apart, found.as_str(), "\n"])
    }

    fn push_place(&mut self, alloc: Global, line: u64) -> Result<(), Memory> {
        let place = format!(in alloc; "{}:{line}: ", self.name)?;
        self.told.push_str(place.as_str())
    }

    fn push_words(&mut self, words: &[String]) -> Result<(), Memory> {
        for word in words {
            push_all(&mut self.told, &[" ", word.as_str()])?;
        }
        Ok(())
    }
}

/// Tries the rows of a file line by line.
pub fn try_lines(
    alloc: Global,
    reader: &mut Reader,
    text: &str,
    tried: &mut Tried,
) -> Result<(), RowFault> {
    for line in text.lines() {
        let ended = reader.take(alloc, line);
        tried.line = reader.line();
        try_ended(alloc, ended, tried)?;
    }
    let ended = reader.end(alloc);
    tried.line = reader.line();
    try_ended(alloc, ended, tried)
}

// Tries the runs of a row, where one ended.
fn try_ended(
    alloc: Global,
    ended: Result<Option<Row>, RowFault>,
    tried: &mut Tried,
) -> Result<(), RowFault> {
    match ended {
        Err(fault) => Err(fault),
        Ok(None) => Ok(()),
        Ok(Some(row)) => try_row(alloc, &row, tried),
    }
}

fn try_row(alloc: Global, row: &Row, tried: &mut Tried) -> Result<(), RowFault> {
    let mut left = Tree::new(alloc);
    for run in row.runs.as_slice() {
        tried.line = run.line;
        let tree = if run.goes_on { &left } else { &row.tree };
        try_run(alloc, row, run, tree, tried)?;
        if run.is_gone_on {
            left = tree.changed(alloc, run.changes.as_slice())?;
        }
    }
    Ok(())
}

// Tries a run, over each cut of a file where one is cut, and with each call failing that fails in turn.
fn try_run(
    alloc: Global,
    row: &Row,
    run: &Run,
    tree: &Tree,
    tried: &mut Tried,
) -> Result<(), RowFault> {
    let ending = Ending::of(alloc, run.wanted()?)?;
    let trial = Trial {
        row,
        run,
        tree,
        input: run.input.as_slice(),
        fails: &run.fails,
        apart: "",
    };
    try_ways(alloc, trial, ending.with(run.changes.as_slice()), tried)
}

fn try_ways(
    alloc: Global,
    trial: Trial<'_>,
    expected: Expected<'_>,
    tried: &mut Tried,
) -> Result<(), RowFault> {
    match &trial.run.cut {
        None => try_one(alloc, trial, expected, tried)?,
        Some(cut) => try_cuts(alloc, trial, cut, expected, tried)?,
    }
    for turns in trial.run.turns.as_slice() {
        try_turns(alloc, trial, turns, expected, tried)?;
    }
    Ok(())
}

fn try_one(
    alloc: Global,
    trial: Trial<'_>,
    expected: Expected<'_>,
    tried: &mut Tried,
) -> Result<(), RowFault> {
    let outcome = outcome_of(alloc, trial.tree, trial.run, trial.input, trial.fails)?;
    let found = found_of(alloc, trial, &outcome, expected)?;
    Ok(tried.count(alloc, trial, &found)?)
}

fn found_of(
    alloc: Global,
    trial: Trial<'_>,
    outcome: &Outcome,
    expected: Expected<'_>,
) -> Result<Differences, RowFault> {
    let mut found = differences(alloc, trial.tree, outcome, expected)?;
    if trial.apart.is_empty() {
        compare_told(alloc, trial.run, outcome, &mut found)?;
    }
    Ok(found)
}

// What is told of the run itself alone.
fn compare_told(
    alloc: Global,
    run: &Run,
    outcome: &Outcome,
    found: &mut Differences,
) -> Result<(), RowFault> {
    if let Some(looks) = &run.looks {
        compare_looks(alloc, outcome, looks.as_slice(), found)?;
    }
    if let Some(shown) = &run.shown {
        compare_shown(alloc, outcome, shown.as_slice(), found)?;
    }
    Ok(())
}

// The file or the input cut to each of the lengths.
fn try_cuts(
    alloc: Global,
    trial: Trial<'_>,
    cut: &Cut,
    expected: Expected<'_>,
    tried: &mut Tried,
) -> Result<(), RowFault> {
    for length in cut.first..cut.last.saturating_add(1) {
        match &cut.path {
            Some(path) => try_cut_file(alloc, trial, path.as_str(), length, expected, tried)?,
            None => try_cut_input(alloc, trial, length, expected, tried)?,
        }
    }
    Ok(())
}

fn try_cut_file(
    alloc: Global,
    trial: Trial<'_>,
    path: &str,
    length: u64,
    expected: Expected<'_>,
    tried: &mut Tried,
) -> Result<(), RowFault> {
    let tree = trial.tree.cut(alloc, path, length)?;
    let apart = format!(in alloc; ", {path} cut to {length}")?;
    let trial = Trial {
        tree: &tree,
        apart: apart.as_str(),
        ..trial
    };
    try_one(alloc, trial, expected, tried)
}

fn try_cut_input(
    alloc: Global,
    trial: Trial<'_>,
    length: u64,
    expected: Expected<'_>,
    tried: &mut Tried,
) -> Result<(), RowFault> {
    let Some(input) = trial.input.get(..length as usize) else {
        return Err(RowFault::Malformed {
            why: "an input is cut where it has no bytes",
        });
    };
    let apart = format!(in alloc; ", the input cut to {length}")?;
    let trial = Trial {
        input,
        apart: apart.as_str(),
        ..trial
    };
    try_one(alloc, trial, expected, tried)
}

// Each of the calls failing, and then the one that would come next, which the run doesn't make unless others fail in
// turn behind these.
fn try_turns(
    alloc: Global,
    trial: Trial<'_>,
    turns: &Turns,
    expected: Expected<'_>,
    tried: &mut Tried,
) -> Result<(), RowFault> {
    match &turns.wanted {
        None => try_agains(alloc, trial, turns, expected, tried),
        Some(wanted) => {
            let ending = Ending::of(alloc, wanted)?;
            try_each(alloc, trial, turns, &ending, expected, tried)
        }
    }
}

fn try_each(
    alloc: Global,
    trial: Trial<'_>,
    turns: &Turns,
    ending: &Ending,
    expected: Expected<'_>,
    tried: &mut Tried,
) -> Result<(), RowFault> {
    for number in turns.first..turns.last.saturating_add(1) {
        let ended = ending.with(changed_before(turns.call, number, expected.changes));
        try_turn(alloc, trial, turns.call, number, ended, tried)?;
    }
    let beyond = turns.last.saturating_add(1);
    if trial.run.has_turn(turns.call, beyond) {
        return Ok(());
    }
    try_turn(alloc, trial, turns.call, beyond, expected, tried)
}

fn try_turn(
    alloc: Global,
    trial: Trial<'_>,
    call: Call,
    number: u64,
    expected: Expected<'_>,
    tried: &mut Tried,
) -> Result<(), RowFault> {
    let fails = trial.run.fails.and_one(alloc, call, number)?;
    let apart = format!(in alloc; ", {} {number} failing", call.name())?;
    let trial = Trial {
        fails: &fails,
        apart: apart.as_str(),
        ..trial
    };
    try_one(alloc, trial, expected, tried)
}

// The session that makes an edit again, with each of the calls failing, and with none.
fn try_agains(
    alloc: Global,
    trial: Trial<'_>,
    turns: &Turns,
    expected: Expected<'_>,
    tried: &mut Tried,
) -> Result<(), RowFault> {
    try_again(alloc, trial, 0, expected, tried)?;
    for number in turns.first..turns.last.saturating_add(1) {
        try_turn_again(alloc, trial, turns.call, number, expected, tried)?;
    }
    Ok(())
}

fn try_turn_again(
    alloc: Global,
    trial: Trial<'_>,
    call: Call,
    number: u64,
    expected: Expected<'_>,
    tried: &mut Tried,
) -> Result<(), RowFault> {
    let fails = trial.fails.and_one(alloc, call, number)?;
    let apart = format!(in alloc; ", {} {number} failing, again", call.name())?;
    let trial = Trial {
        fails: &fails,
        apart: apart.as_str(),
        ..trial
    };
    try_again(alloc, trial, 1, expected, tried)
}

// So many edits have to be made again.
fn try_again(
    alloc: Global,
    trial: Trial<'_>,
    repeats: u64,
    expected: Expected<'_>,
    tried: &mut Tried,
) -> Result<(), RowFault> {
    let repeated = again_outcome(alloc, trial.tree, trial.run, trial.fails)?;
    let found = found_again(alloc, trial, &repeated, repeats, expected)?;
    Ok(tried.count(alloc, trial, &found)?)
}

fn found_again(
    alloc: Global,
    trial: Trial<'_>,
    repeated: &Repeated,
    repeats: u64,
    expected: Expected<'_>,
) -> Result<Differences, RowFault> {
    let mut found = differences(alloc, trial.tree, &repeated.outcome, expected)?;
    compare_again(alloc, repeated.told, repeats, &mut found)?;
    Ok(found)
}

fn compare_again(
    alloc: Global,
    told: Told,
    repeats: u64,
    found: &mut Differences,
) -> Result<(), Memory> {
    if told.repeats != repeats {
        let number = format!(in alloc; " edits are made again, and not {repeats}")?;
        let count = format!(in alloc; "{}", told.repeats)?;
        found.push(count.as_str(), number.as_str())?;
    }
    if !told.stays {
        found.push("the session", " is changed by an edit that isn't made")?;
    }
    Ok(())
}

// Which of the files are written before a call fails: a command writes when all its looks and takes are done, one
// file after another, and says so when all is written.
fn changed_before(call: Call, number: u64, changes: &[Change]) -> &[Change] {
    match call {
        Call::Look => &[],
        Call::Take => &[],
        Call::Write => changes
            .get(..number.saturating_sub(1) as usize)
            .unwrap_or(changes),
        Call::Give => changes,
    }
}
