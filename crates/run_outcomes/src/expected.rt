//! What must come of a run.

use row_files::{Change, RowFault, Wanted};
use std::alloc::Global;

/// The status, what is said, and the files that are written.
#[derive(Clone, Copy)]
pub struct Expected<'a> {
    /// What the run ends with.
    pub status: u8,
    /// None where something is said that isn't told.
    pub said: Option<&'a [u8]>,
    /// The files that are written, by path and text.
    pub changes: &'a [Change],
}

/// What `STATUS LINE` and the block below it ask for: the status, and what is said.
#[derive(Drop)]
pub struct Ending {
    status: u8,
    said: Option<Vec<u8>>,
}

impl Ending {
    /// That of a row; `Malformed` where its status is no number below 256.
    pub fn of(alloc: Global, wanted: &Wanted) -> Result<Ending, RowFault> {
        let text = wanted.text.as_str();
        let (status, line) = text.split_once(' ').unwrap_or((text, ""));
        Ok(Ending {
            status: status_of(status)?,
            said: said_of(alloc, line, wanted)?,
        })
    }

    /// What is asked for where these files are written.
    pub fn with<'a>(&'a self, changes: &'a [Change]) -> Expected<'a> {
        Expected {
            status: self.status,
            said: match &self.said {
                None => None,
                Some(said) => Some(said.as_slice()),
            },
            changes,
        }
    }
}

fn status_of(text: &str) -> Result<u8, RowFault> {
    match text.parse::<u8>() {
        Ok(status) => Ok(status),
        Err(_) => Err(RowFault::Malformed {
            why: "a status is none",
        }),
    }
}

fn said_of(alloc: Global, line: &str, wanted: &Wanted) -> Result<Option<Vec<u8>>, RowFault> {
    if line == "..." {
        return Ok(None);
    }
    let mut said = Vec::new(alloc);
    match push_said(&mut said, line, wanted) {
        Ok(()) => Ok(Some(said)),
        Err(fault) => Err(fault),
    }
}

fn push_said(said: &mut Vec<u8>, line: &str, wanted: &Wanted) -> Result<(), RowFault> {
    if !line.is_empty() {
        said.extend_from_slice(line.as_bytes())?;
        said.extend_from_slice(b"\n".as_slice())?;
    }
    if let Some(block) = &wanted.block {
        said.extend_from_slice(block.as_slice())?;
    }
    Ok(())
}
