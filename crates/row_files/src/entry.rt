//! Files and folders, as lines tell them.

use crate::item::Item;
use crate::names::Names;
use crate::row::Change;
use crate::tree::Stands;
use row_texts::{RowFault, Written, malformed, unescaped, unescaped_text, written_of};
use std::alloc::Global;

fn block_of(alloc: Global, item: &Item) -> Result<Vec<u8>, RowFault> {
    match &item.block {
        None => Ok(Vec::new(alloc)),
        Some(block) => Ok(Vec::from_slice(alloc, block.as_slice())?),
    }
}

/// What a line of a tree, an item's head or what it repeats, puts there.
pub(crate) fn entry_of(
    alloc: Global,
    names: &Names,
    item: &Item,
    line: &str,
    turn: Option<u64>,
) -> Result<Stands, RowFault> {
    let written = written_of(line)?;
    Ok(Stands {
        bytes: bytes_of(alloc, names, item, written, turn)?,
        path: unescaped_text(alloc, path_of(written), turn)?,
    })
}

fn path_of(written: Written<'_>) -> &str {
    match written {
        Written::Text(path, _) => path,
        Written::Block(path) => path,
        Written::Named(path, _) => path,
        Written::Untold(path) => path,
        Written::Folder(path) => path,
    }
}

// The bytes of a file; None for a folder.
fn bytes_of(
    alloc: Global,
    names: &Names,
    item: &Item,
    written: Written<'_>,
    turn: Option<u64>,
) -> Result<Option<Vec<u8>>, RowFault> {
    if let Written::Block(_) = written {
        return file_of(block_of(alloc, item));
    }
    item.without_block()?;
    match written {
        Written::Text(_, text) => file_of(unescaped(alloc, text, turn)),
        Written::Named(_, name) => file_of(named(alloc, names, name)),
        Written::Folder(_) => Ok(None),
        _ => Err(malformed("a file of a tree must be told")),
    }
}

fn file_of(bytes: Result<Vec<u8>, RowFault>) -> Result<Option<Vec<u8>>, RowFault> {
    match bytes {
        Ok(bytes) => Ok(Some(bytes)),
        Err(fault) => Err(fault),
    }
}

fn named(alloc: Global, names: &Names, name: &str) -> Result<Vec<u8>, RowFault> {
    Ok(Vec::from_slice(alloc, names.text(name)?)?)
}

/// What a line says of a file that is written.
pub(crate) fn change_of(
    alloc: Global,
    names: &Names,
    item: &Item,
    line: &str,
) -> Result<Change, RowFault> {
    match written_of(line)? {
        Written::Untold(path) => untold(alloc, item, path),
        written => told(alloc, names, item, written),
    }
}

fn untold(alloc: Global, item: &Item, path: &str) -> Result<Change, RowFault> {
    item.without_block()?;
    Ok(Change {
        path: unescaped_text(alloc, path, None)?,
        bytes: None,
    })
}

fn told(
    alloc: Global,
    names: &Names,
    item: &Item,
    written: Written<'_>,
) -> Result<Change, RowFault> {
    match bytes_of(alloc, names, item, written, None)? {
        None => Err(malformed("a folder isn't written")),
        Some(bytes) => Ok(Change {
            path: unescaped_text(alloc, path_of(written), None)?,
            bytes: Some(bytes),
        }),
    }
}
