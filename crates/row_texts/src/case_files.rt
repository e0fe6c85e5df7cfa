//! Files of cases.

use crate::cases::Cases;
use crate::layers::Layers;
use std::alloc::Global;
use std::rt::Runtime;
use std::{fs, io};

/// Tries the cases of a file. It writes those that come to something else, and then how many there are.
pub fn try_file<R: Runtime + AllocGlobal, A: Layers>(
    rt: &R,
    layers: &mut A,
    name: &str,
) -> io::Result<()> {
    let text = fs::read_to_string(rt, name)?;
    let cases = cases_of(rt.alloc(), layers, text.as_str())?;
    let line = cases.report().line(rt.alloc(), name)?;
    rt.print(cases.told().whole()?)?;
    rt.print(line.as_str())
}

// Tries the cases of a file, over a tree of its own.
fn cases_of<A: Layers>(alloc: Global, layers: &mut A, text: &str) -> io::Result<Cases> {
    let mut cases = Cases::new(alloc);
    if layers.clear(alloc).is_err() {
        return Err(io::Error::other("no memory"));
    }
    cases.take_all(alloc, layers, text);
    Ok(cases)
}
