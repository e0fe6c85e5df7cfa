//! Tries rows over the layers that read packages, each typed by hand from Node's documentation or the rules that its layer
//! follows, and tells beside them what looks come to.
#![tactic(auto)]

ghost use Rattle.std.specs.Prelude.{◌≡◌, ◌<◌};

mod answers;
mod laid;
mod limits;
mod packages;
mod site;
mod targets;

use crate::laid::tell_laid;
use crate::limits::{tell_looks_at_files, tell_looks_at_nothing};
use crate::packages::Packages;
use row_texts::{Said, try_file};
use std::io;
use std::rt::Runtime;
use std::sync::ledger::{Blank, Ledger};

/// Tries the rows of a file with a counter of steps of its own. It writes those that come to something else, and how many
/// there are.
// A `&str` here would leave no ghost members to pick at the call.
pub fn try_packages<R: Runtime + AllocGlobal, L: Ledger>(
    rt: &R,
    name: &String,
    blank: Blank,
) -> io::Result<()>
    requires name { blank.name ≡ L.name }
    requires parts { blank.parts ≡ L.parts }
    requires some { 0 < blank.parts }
{
    let mut packages = Packages::<L>::start(rt.alloc(), blank)?;
    try_file(rt, &mut packages, name.as_str())
}

/// Writes what looks come to that are laid over a folder, and how many looks one trail takes until one passes a limit.
pub fn tell_looks<R: Runtime + AllocGlobal>(rt: &R) -> io::Result<()> {
    let mut said = Said::new(rt.alloc());
    tell_laid(rt.alloc(), &mut said);
    tell_looks_at_nothing(rt.alloc(), &mut said);
    tell_looks_at_files(rt.alloc(), &mut said);
    rt.print(said.whole()?)
}
