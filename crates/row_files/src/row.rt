//! What a row file says.

use crate::tree::Tree;
use row_texts::{RowFault, malformed};
use std::alloc::Global;

/// A tree, and the runs over it.
#[derive(Drop)]
pub struct Row {
    pub title: String,
    /// The number of the line on which it begins.
    pub line: u64,
    pub tree: Tree,
    pub runs: Vec<Run>,
}

/// One run: what it is given, and what must come of it.
#[derive(Drop)]
pub struct Run {
    pub line: u64,
    /// Whether it goes over what the run before left.
    pub goes_on: bool,
    /// Whether the next run goes over what this one leaves.
    pub is_gone_on: bool,
    pub words: Vec<String>,
    pub input: Vec<u8>,
    /// How many bytes of the input come at a time; None where all may.
    pub piece: Option<u64>,
    pub fails: Fails,
    pub cut: Option<Cut>,
    pub(crate) wanted: Option<Wanted>,
    /// The files that it writes, in their order. No other file is written.
    pub changes: Vec<Change>,
    /// The paths at which it looks, where they are told.
    pub looks: Option<Vec<String>>,
    /// What a watch is shown, where it is told: a text for each showing, with a module on each line.
    pub shown: Option<Vec<String>>,
    /// Calls that fail in turn.
    pub turns: Vec<Turns>,
}

/// The numbers, from 1, of the calls that fail.
#[derive(Drop)]
pub struct Fails {
    pub looks: Vec<u64>,
    pub writes: Vec<u64>,
    pub takes: Vec<u64>,
    pub gives: Vec<u64>,
}

/// A kind of calls of the outside.
#[derive(Clone, Copy, PartialEq, Eq)]
pub enum Call {
    Look,
    Write,
    Take,
    Give,
}

/// A file, or the input, of which only a front is there: a run for each of these lengths.
#[derive(Drop)]
pub struct Cut {
    /// None is the input.
    pub path: Option<String>,
    pub first: u64,
    pub last: u64,
}

/// What is said behind `=>`.
#[derive(Drop)]
pub struct Wanted {
    /// What stands on the line.
    pub text: String,
    /// What stands on the lines below.
    pub block: Option<Vec<u8>>,
}

/// A file that is written: its bytes, where they are told.
#[derive(Drop)]
pub struct Change {
    pub path: String,
    pub bytes: Option<Vec<u8>>,
}

/// Calls of one kind that fail in turn, and how each such run must end.
#[derive(Drop)]
pub struct Turns {
    pub call: Call,
    pub first: u64,
    pub last: u64,
    /// None where the run is a session that makes an edit again for which a call failed, and so ends as it does itself.
    pub wanted: Option<Wanted>,
}

impl Call {
    pub(crate) fn parse(name: &str) -> Result<Call, RowFault> {
        match name {
            "look" => Ok(Call::Look),
            "write" => Ok(Call::Write),
            "take" => Ok(Call::Take),
            "give" => Ok(Call::Give),
            _ => Err(malformed("a call is none of look, write, take and give")),
        }
    }

    pub fn name(self) -> &'static str {
        match self {
            Call::Look => "look",
            Call::Write => "write",
            Call::Take => "take",
            Call::Give => "give",
        }
    }
}

impl Fails {
    pub fn none(alloc: Global) -> Fails {
        Fails {
            looks: Vec::new(alloc),
            writes: Vec::new(alloc),
            takes: Vec::new(alloc),
            gives: Vec::new(alloc),
        }
    }

    /// The same calls, and one more.
    pub fn and_one(&self, alloc: Global, call: Call, number: u64) -> Result<Fails, RowFault> {
        let mut fails = Fails {
            looks: Vec::from_slice(alloc, self.looks.as_slice())?,
            writes: Vec::from_slice(alloc, self.writes.as_slice())?,
            takes: Vec::from_slice(alloc, self.takes.as_slice())?,
            gives: Vec::from_slice(alloc, self.gives.as_slice())?,
        };
        fails.push(call, number)?;
        Ok(fails)
    }

    pub(crate) fn push(&mut self, call: Call, number: u64) -> Result<(), RowFault> {
        let numbers = match call {
            Call::Look => &mut self.looks,
            Call::Write => &mut self.writes,
            Call::Take => &mut self.takes,
            Call::Give => &mut self.gives,
        };
        numbers.push(number)?;
        Ok(())
    }
}

impl Run {
    pub(crate) fn new(alloc: Global, line: u64, goes_on: bool, words: Vec<String>) -> Run {
        Run {
            line,
            goes_on,
            is_gone_on: false,
            words,
            input: Vec::new(alloc),
            piece: None,
            fails: Fails::none(alloc),
            cut: None,
            wanted: None,
            changes: Vec::new(alloc),
            looks: None,
            shown: None,
            turns: Vec::new(alloc),
        }
    }

    // A run that has all in its line and in what is asked above it.
    pub(crate) fn short(
        alloc: Global,
        line: u64,
        words: Vec<String>,
        wanted: Wanted,
        changes: Vec<Change>,
    ) -> Run {
        Run {
            line,
            goes_on: false,
            is_gone_on: false,
            words,
            input: Vec::new(alloc),
            piece: None,
            fails: Fails::none(alloc),
            cut: None,
            wanted: Some(wanted),
            changes,
            looks: None,
            shown: None,
            turns: Vec::new(alloc),
        }
    }

    /// Whether edits are made again for which a call failed.
    pub fn makes_again(&self) -> bool {
        for turns in self.turns.as_slice() {
            if turns.wanted.is_none() {
                return true;
            }
        }
        false
    }

    /// Whether this call is one of those that fail in turn.
    pub fn has_turn(&self, call: Call, number: u64) -> bool {
        for turns in self.turns.as_slice() {
            if turns.call == call && turns.first <= number && number <= turns.last {
                return true;
            }
        }
        false
    }

    /// What must come.
    pub fn wanted(&self) -> Result<&Wanted, RowFault> {
        match &self.wanted {
            None => Err(malformed("a run of this row has no `=>`")),
            Some(wanted) => Ok(wanted),
        }
    }
}
