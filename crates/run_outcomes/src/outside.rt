//! What is outside of a run: a folder, an input and an output in memory, and a watch.

use crate::pieces::Pieces;
use crate::showings::Showings;
use crate::watched::Watched;
use row_files::{Fails, RowFault, Run, Tree};
use std::alloc::Global;
use tree_model::{MemFolder, MemSink};

/// What is outside of a run.
pub struct Outside {
    /// The folder over which it goes.
    pub folder: Watched<MemFolder>,
    /// Where it takes its input.
    pub input: Pieces,
    /// Where it gives its output.
    pub out: MemSink,
    /// What a session is shown to.
    pub watch: Showings,
}

// Written out once, since many functions end with an outcome in hand at many places.
impl Drop for Outside {
    fn drop(self) {
        let Outside {
            folder: _,
            input: _,
            out: _,
            watch: _,
        } = self;
    }
}

/// How a run ended, and what is outside of it then.
#[derive(Drop)]
pub struct Outcome {
    /// What the run ended with.
    pub status: u8,
    /// The folder, the input, the output and the watch, as it left them.
    pub outside: Outside,
}

impl Outside {
    /// A folder with this tree, this input in the pieces that the run names, and an output, where these calls fail; and a
    /// watch that keeps what it is shown where the run tells it.
    pub fn new(
        alloc: Global,
        tree: &Tree,
        run: &Run,
        input: &[u8],
        fails: &Fails,
    ) -> Result<Outside, RowFault> {
        let most = run.piece.unwrap_or(u64::MAX) as usize;
        Ok(Outside {
            input: Pieces::new(alloc, input, most, fails.takes.as_slice())?,
            out: MemSink::new(alloc, fails.gives.as_slice())?,
            watch: Showings::new(alloc, run.shown.is_some()),
            folder: Watched::new(
                alloc,
                tree.folder(alloc, fails.looks.as_slice(), fails.writes.as_slice())?,
            ),
        })
    }

    /// What is left behind by what ended with this status; `Memory` where a path that was looked at or written is missing.
    pub fn left(self, status: u8) -> Result<Outcome, RowFault> {
        if !self.folder.is_whole() {
            return Err(RowFault::Memory);
        }
        Ok(Outcome {
            status,
            outside: self,
        })
    }
}
