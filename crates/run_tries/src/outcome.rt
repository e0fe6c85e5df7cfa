//! A run, and what it leaves.
ghost use Rattle.std.specs.Prelude.{◌≡◌, ◌<◌};

use generator_core::run;
use row_files::{Fails, RowFault, Run, Tree};
use run_outcomes::{Outcome, Outside};
use shared_types::Steps;
use std::alloc::Global;
use std::marker::Brand;
use std::sync::ledger::{Blank, Ledger};

fn status_of<L: Ledger>(alloc: Global, words: &[String], outside: &mut Outside, blank: Blank) -> u8
    requires name { blank.name ≡ L.name }
    requires parts { blank.parts ≡ L.parts }
    requires some { 0 < blank.parts }
{
    let mut steps = Steps::<L>::start(blank);
    run(
        alloc,
        words,
        &mut outside.folder,
        &mut outside.input,
        &mut outside.out,
        &mut outside.watch,
        &mut steps,
    )
}

/// How a run over a tree ends, with this input, where these calls fail.
pub(crate) fn outcome_of(
    alloc: Global,
    tree: &Tree,
    run: &Run,
    input: &[u8],
    fails: &Fails,
) -> Result<Outcome, RowFault> {
    let mut outside = Outside::new(alloc, tree, run, input, fails)?;
    let status = status_of::<Brand>(alloc, run.words.as_slice(), &mut outside, Blank::new(1));
    outside.left(status)
}
