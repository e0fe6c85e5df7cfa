//! Tries files of cases: questions to layers, each with its answer.

use crate::case_line::{CaseLine, case_line_of};
use crate::escapes::{unescaped, unescaped_text};
use crate::fault::{RowFault, malformed};
use crate::layers::{Layers, Question};
use crate::report::Report;
use crate::said::Said;
use crate::written::{Written, written_of};
use std::alloc::Global;
use tree_model::Path;

/// Where a package stands whose tree has a line of its own.
const PACKAGE: &str = "/node_modules/p/";

/// What has been read of a file: the layer that is asked with the rest of its `ask`, what it is given, and what was
/// tried.
#[derive(Drop)]
pub(crate) struct Cases {
    layer: String,
    rest: String,
    given: String,
    report: Report,
    told: Said,
}

impl Cases {
    pub fn new(alloc: Global) -> Cases {
        Cases {
            layer: String::new(alloc),
            rest: String::new(alloc),
            given: String::new(alloc),
            report: Report::new(),
            told: Said::new(alloc),
        }
    }

    /// How many cases there are, and how many come to their answers. A line that is none of the form counts as a case
    /// that doesn't.
    pub fn report(&self) -> &Report {
        &self.report
    }

    /// The cases that come to something else, and the lines that are none of the form.
    pub fn told(&self) -> &Said {
        &self.told
    }

    /// Tries all lines of a file.
    pub fn take_all<A: Layers>(&mut self, alloc: Global, layers: &mut A, text: &str) {
        for line in text.lines() {
            if let Err(fault) = self.take(alloc, layers, case_line_of(line)) {
                self.report.count(false);
                self.told.push_all(&[line, "\n  is "]);
                self.told.push_all(&[fault.text(), "\n"]);
            }
        }
    }

    fn take<A: Layers>(
        &mut self,
        alloc: Global,
        layers: &mut A,
        line: CaseLine<'_>,
    ) -> Result<(), RowFault> {
        match line {
            CaseLine::Nothing => Ok(()),
            CaseLine::Row => layers.clear(alloc),
            CaseLine::Ask(ask) => self.ask(alloc, ask),
            CaseLine::Given(text) => self.give(alloc, text),
            CaseLine::Entry(entry) => put_entry(alloc, layers, entry),
            CaseLine::Package(package) => put_package(alloc, layers, package),
            CaseLine::Case(case) => self.try_case(alloc, layers, case),
            CaseLine::Unknown => Err(malformed("a line is none of the form")),
        }
    }

    fn ask(&mut self, alloc: Global, ask: &str) -> Result<(), RowFault> {
        let (layer, rest) = ask.split_once(' ').unwrap_or((ask, ""));
        self.layer = String::from_str(alloc, layer)?;
        self.rest = unescaped_text(alloc, rest, None)?;
        Ok(())
    }

    fn give(&mut self, alloc: Global, text: &str) -> Result<(), RowFault> {
        self.given = unescaped_text(alloc, text, None)?;
        Ok(())
    }

    // `ASKED => WANTED`
    fn try_case<A: Layers>(
        &mut self,
        alloc: Global,
        layers: &mut A,
        case: &str,
    ) -> Result<(), RowFault> {
        let Some((asked, wanted)) = case.split_once(" => ") else {
            return Err(malformed("a case has no answer"));
        };
        let bytes = unescaped(alloc, asked, None)?;
        let wanted = unescaped_text(alloc, wanted, None)?;
        let said = self.answer(alloc, layers, bytes.as_slice(), wanted.as_str());
        self.compare(asked, wanted.as_str(), &said);
        Ok(())
    }

    fn answer<A: Layers>(&self, alloc: Global, layers: &mut A, asked: &[u8], wanted: &str) -> Said {
        let mut said = Said::new(alloc);
        let question = Question {
            layer: self.layer.as_str(),
            rest: self.rest.as_str(),
            given: self.given.as_str(),
            asked,
            wanted,
        };
        layers.answer(alloc, &question, &mut said);
        said
    }

    fn compare(&mut self, asked: &str, wanted: &str, said: &Said) {
        let has_passed = said.is(wanted);
        self.report.count(has_passed);
        if !has_passed {
            self.told.push_all(&[asked, "\n  wants ", wanted]);
            self.told.push_all(&["\n  and gets ", said.as_str(), "\n"]);
        }
    }
}

// A file with its text, an empty one, or a folder.
fn put_entry<A: Layers>(alloc: Global, layers: &mut A, entry: &str) -> Result<(), RowFault> {
    match written_of(entry)? {
        Written::Text(path, text) => put_text(alloc, layers, path, text),
        Written::Block(path) => put_text(alloc, layers, path, ""),
        Written::Folder(path) => put(alloc, layers, path, None),
        _ => Err(malformed("an entry is neither a file nor a folder")),
    }
}

// An empty tree, and in it a package with this package.json, and behind a ` | ` the names of its empty files.
fn put_package<A: Layers>(alloc: Global, layers: &mut A, package: &str) -> Result<(), RowFault> {
    layers.clear(alloc)?;
    match package.split_once(" | ") {
        None => put_named(alloc, layers, "package.json", package),
        Some((record, names)) => {
            put_named(alloc, layers, "package.json", record)?;
            put_names(alloc, layers, names)
        }
    }
}

fn put_names<A: Layers>(alloc: Global, layers: &mut A, names: &str) -> Result<(), RowFault> {
    for name in names.split(", ") {
        put_named(alloc, layers, name, "")?;
    }
    Ok(())
}

// A file of the package.
fn put_named<A: Layers>(
    alloc: Global,
    layers: &mut A,
    name: &str,
    text: &str,
) -> Result<(), RowFault> {
    let mut path = Said::new(alloc);
    path.push_all(&[PACKAGE, name]);
    put_text(alloc, layers, path.whole()?, text)
}

fn put_text<A: Layers>(
    alloc: Global,
    layers: &mut A,
    path: &str,
    text: &str,
) -> Result<(), RowFault> {
    let bytes = unescaped(alloc, text, None)?;
    put(alloc, layers, path, Some(bytes.as_slice()))
}

fn put<A: Layers>(
    alloc: Global,
    layers: &mut A,
    path: &str,
    file: Option<&[u8]>,
) -> Result<(), RowFault> {
    let text = unescaped_text(alloc, path, None)?;
    let path = Path::parse(alloc, text.as_str())?;
    layers.put(alloc, &path, file)
}
