//! Tries rows over the layers that read texts, each typed by hand from the standard or the rules that its layer follows.
#![tactic(auto)]

ghost use Rattle.std.specs.Prelude.{◌≡◌, ◌<◌};

mod digests;
mod json_texts;
mod maps;
mod outlines;
mod pages;
mod strict;
mod texts;
mod tokens;
mod urls;

use crate::texts::Texts;
use row_texts::try_file;
use std::io;
use std::rt::Runtime;
use std::sync::ledger::{Blank, Ledger};

/// Tries the rows of a file with a counter of steps of its own. It writes those that come to something else, and how many
/// there are.
// A `&str` here would leave no ghost members to pick at the call.
pub fn try_texts<R: Runtime + AllocGlobal, L: Ledger>(
    rt: &R,
    name: &String,
    blank: Blank,
) -> io::Result<()>
    requires name { blank.name ≡ L.name }
    requires parts { blank.parts ≡ L.parts }
    requires some { 0 < blank.parts }
{
    let mut texts = Texts::<L>::start(blank);
    try_file(rt, &mut texts, name.as_str())
}
