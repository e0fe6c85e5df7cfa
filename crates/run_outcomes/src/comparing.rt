//! Whether a run ended as it must.

use crate::expected::Expected;
use crate::outside::Outcome;
use crate::parts::push_all;
use row_files::{Change, Differences, RowFault, Tree};
use shared_types::Memory;
use std::alloc::Global;
use tree_model::{MemFolder, Path};

/// Where a run over a tree ended otherwise.
pub fn differences(
    alloc: Global,
    tree: &Tree,
    outcome: &Outcome,
    expected: Expected<'_>,
) -> Result<Differences, RowFault> {
    let mut found = Differences::new(alloc);
    match compare(alloc, tree, outcome, expected, &mut found) {
        Ok(()) => Ok(found),
        Err(fault) => Err(fault),
    }
}

fn compare(
    alloc: Global,
    tree: &Tree,
    outcome: &Outcome,
    expected: Expected<'_>,
    found: &mut Differences,
) -> Result<(), RowFault> {
    compare_status(alloc, outcome, expected, found)?;
    compare_said(alloc, outcome, expected, found)?;
    compare_changes(alloc, outcome, expected.changes, found)?;
    compare_written(outcome, expected.changes, found)?;
    compare_kept(alloc, tree, outcome, expected.changes, found)
}

fn compare_status(
    alloc: Global,
    outcome: &Outcome,
    expected: Expected<'_>,
    found: &mut Differences,
) -> Result<(), Memory> {
    let wanted = format!(in alloc; "{}", expected.status)?;
    let got = format!(in alloc; "{}", outcome.status)?;
    found.compare(alloc, "the status", wanted.as_bytes(), got.as_bytes())
}

fn compare_said(
    alloc: Global,
    outcome: &Outcome,
    expected: Expected<'_>,
    found: &mut Differences,
) -> Result<(), Memory> {
    match expected.said {
        Some(said) => found.compare(alloc, "the output", said, outcome.outside.out.got()),
        None if outcome.outside.out.got().is_empty() => found.push(
            "the output",
            " must not be empty",
        ),
        None => Ok(()),
    }
}

fn compare_changes(
    alloc: Global,
    outcome: &Outcome,
    changes: &[Change],
    found: &mut Differences,
) -> Result<(), RowFault> {
    for change in changes {
        compare_change(alloc, outcome, change, found)?;
    }
    Ok(())
}

// Whether no other files are written.
fn compare_written(
    outcome: &Outcome,
    changes: &[Change],
    found: &mut Differences,
) -> Result<(), Memory> {
    for path in outcome.outside.folder.written() {
        if !is_among(path.as_str(), changes) {
            found.push(path.as_str(), " is written, and must not be")?;
        }
    }
    Ok(())
}

// Whether a file is written, with the text that is told.
fn compare_change(
    alloc: Global,
    outcome: &Outcome,
    change: &Change,
    found: &mut Differences,
) -> Result<(), RowFault> {
    let path = change.path.as_str();
    if !is_written(path, outcome.outside.folder.written()) {
        return Ok(found.push(path, " must be written")?);
    }
    if let Some(bytes) = &change.bytes {
        compare_file(
            alloc,
            outcome.outside.folder.folder(),
            path,
            bytes.as_slice(),
            found,
        )?;
    }
    Ok(())
}

// Whether all files of the tree, but for those that are written, have their texts.
fn compare_kept(
    alloc: Global,
    tree: &Tree,
    outcome: &Outcome,
    changes: &[Change],
    found: &mut Differences,
) -> Result<(), RowFault> {
    let paths = tree.paths(alloc)?;
    compare_paths(alloc, tree, outcome, changes, paths.as_slice(), found)
}

fn compare_paths(
    alloc: Global,
    tree: &Tree,
    outcome: &Outcome,
    changes: &[Change],
    paths: &[&str],
    found: &mut Differences,
) -> Result<(), RowFault> {
    for path in paths {
        if is_among(path, changes) {
            continue;
        }
        if let Some(bytes) = tree.file(path) {
            compare_file(alloc, outcome.outside.folder.folder(), path, bytes, found)?;
        }
    }
    Ok(())
}

fn compare_file(
    alloc: Global,
    folder: &MemFolder,
    path: &str,
    bytes: &[u8],
    found: &mut Differences,
) -> Result<(), RowFault> {
    let parsed = Path::parse(alloc, path)?;
    Ok(compare_bytes(alloc, path, bytes, folder.file(&parsed), found)?)
}

fn compare_bytes(
    alloc: Global,
    path: &str,
    wanted: &[u8],
    got: Option<&[u8]>,
    found: &mut Differences,
) -> Result<(), Memory> {
    match got {
        None => found.push(path, " is no file"),
        Some(got) => found.compare(alloc, path, wanted, got),
    }
}

/// Whether the run looked at these paths, in this order.
pub fn compare_looks(
    alloc: Global,
    outcome: &Outcome,
    looks: &[String],
    found: &mut Differences,
) -> Result<(), RowFault> {
    let wanted = words_text(alloc, looks)?;
    let got = paths_text(alloc, outcome.outside.folder.looked())?;
    Ok(found.compare(
        alloc,
        "what is looked at",
        wanted.as_bytes(),
        got.as_bytes(),
    )?)
}

fn words_text(alloc: Global, words: &[String]) -> Result<String, Memory> {
    let mut text = String::new(alloc);
    for word in words {
        push_all(&mut text, &[word.as_str(), "\n"])?;
    }
    Ok(text)
}

fn paths_text(alloc: Global, paths: &[Path]) -> Result<String, Memory> {
    let mut text = String::new(alloc);
    for path in paths {
        push_all(&mut text, &[path.as_str(), "\n"])?;
    }
    Ok(text)
}

/// Whether this is what the run shows.
pub fn compare_shown(
    alloc: Global,
    outcome: &Outcome,
    shown: &[String],
    found: &mut Differences,
) -> Result<(), RowFault> {
    let wanted = showings_text(alloc, shown)?;
    let got = showings_text(alloc, outcome.outside.watch.texts())?;
    Ok(found.compare(alloc, "what is shown", wanted.as_bytes(), got.as_bytes())?)
}

// The showings as a row has them.
fn showings_text(alloc: Global, showings: &[String]) -> Result<String, Memory> {
    let mut text = String::new(alloc);
    for showing in showings {
        push_all(&mut text, &["shown\n", showing.as_str()])?;
    }
    Ok(text)
}

fn is_among(path: &str, changes: &[Change]) -> bool {
    for change in changes {
        if change.path.as_str() == path {
            return true;
        }
    }
    false
}

fn is_written(path: &str, written: &[Path]) -> bool {
    for other in written {
        if other.as_str() == path {
            return true;
        }
    }
    false
}
