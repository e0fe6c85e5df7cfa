//! Tries the rows of the files that its words name: runs over folders in memory, each with what must come of it. Each
//! run that ends otherwise is told, with what came, and behind all of them how many runs of each file ended as they
//! must, and how one over a folder without an end does. docs/architecture.md describes the form of the files.
//!
//! Where the input begins with a number, the program makes so many allocations first, tries each run once, and says
//! in a word how it ended. So the allocation that fails by its number can be any of the run: `.ci/memory.sh` does this.
#![tactic(auto)]

use row_files::{Reader, Report, RowFault};
use run_tries::{Tried, endings, endless_line, try_lines};
use shared_types::Memory;
use std::alloc::Global;
use std::rt::Runtime;
use std::{env, fs, io};

/// What came of all files.
#[derive(Drop)]
struct Totals {
    report: Report,
    /// A line for each file.
    lines: String,
}

impl Totals {
    fn new(alloc: Global) -> Totals {
        Totals {
            report: Report::new(),
            lines: String::new(alloc),
        }
    }

    fn add(&mut self, alloc: Global, name: &str, report: &Report) -> Result<(), Memory> {
        self.report.add(report);
        let line = report.line(alloc, name)?;
        self.lines.push_str(line.as_str())
    }
}

// Tries the rows of a file, and tells each run that ends otherwise.
fn try_file<R: Runtime + AllocGlobal>(
    rt: &R,
    reader: &mut Reader,
    name: &str,
    totals: &mut Totals,
) -> io::Result<()> {
    let text = fs::read_to_string(rt, name)?;
    let mut tried = Tried::new(rt.alloc(), name)?;
    let ended = try_lines(rt.alloc(), reader, text.as_str(), &mut tried);
    tell_tried(rt, name, &tried, ended, totals)
}

fn tell_tried<R: Runtime + AllocGlobal>(
    rt: &R,
    name: &str,
    tried: &Tried,
    ended: Result<(), RowFault>,
    totals: &mut Totals,
) -> io::Result<()> {
    rt.print(tried.told())?;
    match ended {
        Ok(()) => Ok(totals.add(rt.alloc(), name, tried.report())?),
        Err(fault) => {
            println!(rt; "{name}:{}: {fault}", tried.line())?;
            Err(io::Error::other("a row file isn't of the form"))
        }
    }
}

// Tries the rows of all files that the words name.
fn try_all<R: Runtime + AllocGlobal>(rt: &R) -> io::Result<()> {
    let mut totals = Totals::new(rt.alloc());
    try_files(rt, &mut totals)?;
    tell_totals(rt, &totals)
}

fn try_files<R: Runtime + AllocGlobal>(rt: &R, totals: &mut Totals) -> io::Result<()> {
    match Reader::new(rt.alloc()) {
        Err(_) => Err(io::Error::other("no memory")),
        Ok(mut reader) => try_words(rt, &mut reader, totals),
    }
}

fn try_words<R: Runtime + AllocGlobal>(
    rt: &R,
    reader: &mut Reader,
    totals: &mut Totals,
) -> io::Result<()> {
    let mut words = env::args(rt)?;
    words.next();
    for word in words {
        try_file(rt, reader, word.as_str(), totals)?;
    }
    Ok(())
}

fn tell_totals<R: Runtime + AllocGlobal>(rt: &R, totals: &Totals) -> io::Result<()> {
    let line = totals.report.line(rt.alloc(), "all files")?;
    rt.print(totals.lines.as_str())?;
    rt.print(endless_line(rt.alloc())?.as_str())?;
    rt.print(line.as_str())?;
    if totals.report.has_failed() {
        return Err(io::Error::other("rows differ"));
    }
    Ok(())
}

// How the runs of all files end where the allocation fails whose turn it is.
fn tell_endings<R: Runtime + AllocGlobal>(rt: &R, allocations: u32) -> io::Result<()> {
    for number in 0..allocations {
        let _ = Box::new(rt.alloc(), number);
    }
    tell_words(rt)
}

fn tell_words<R: Runtime + AllocGlobal>(rt: &R) -> io::Result<()> {
    let mut words = env::args(rt)?;
    words.next();
    for word in words {
        tell_file(rt, word.as_str())?;
    }
    Ok(())
}

fn tell_file<R: Runtime + AllocGlobal>(rt: &R, name: &str) -> io::Result<()> {
    let text = fs::read_to_string(rt, name)?;
    match endings(rt.alloc(), text.as_str()) {
        Ok(told) => rt.print(told.as_str()),
        Err(_) => println!(rt; "no memory for the row itself"),
    }
}

fn main(rt: HostRuntime) -> io::Result<()> {
    let mut line = String::new(rt.alloc());
    rt.read_line(&mut line)?;
    match line.trim().parse::<u32>() {
        Ok(allocations) => tell_endings(&rt, allocations),
        Err(_) => try_all(&rt),
    }
}
