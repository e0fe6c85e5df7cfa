//! What keeps a row file from being read.

use shared_types::Memory;
use std::alloc::AllocFailed;
use std::error::Error;
use std::fmt;
use tree_model::PathFault;

/// Why a line gives nothing.
#[derive(Debug, Drop)]
pub enum RowFault {
    /// It isn't of the form.
    Malformed { why: &'static str },
    Memory,
}

impl RowFault {
    /// Why, in words.
    pub fn text(&self) -> &'static str {
        match self {
            RowFault::Malformed { why } => why,
            RowFault::Memory => "without memory",
        }
    }
}

impl fmt::Display for RowFault {
    fn fmt<W: fmt::Write>(&self, f: &mut fmt::Formatter<W>) -> fmt::Result {
        match self {
            RowFault::Malformed { why } => write!(f, "malformed: {why}"),
            RowFault::Memory => write!(f, "no memory"),
        }
    }
}

impl Error for RowFault {}

impl From<Memory> for RowFault {
    fn from(_: Memory) -> Self {
        RowFault::Memory
    }
}

impl<T: Drop> From<AllocFailed<T>> for RowFault {
    fn from(_: AllocFailed<T>) -> Self {
        RowFault::Memory
    }
}

impl From<PathFault> for RowFault {
    fn from(fault: PathFault) -> Self {
        match fault {
            PathFault::BadPath => RowFault::Malformed {
                why: "a path is none",
            },
            PathFault::Memory => RowFault::Memory,
        }
    }
}

/// The fault of a line that isn't of the form.
pub fn malformed(why: &'static str) -> RowFault {
    RowFault::Malformed { why }
}
