//! A look that is laid over a folder.

use crate::site::Site;
use package_lookup::{LookupFault, Over, Seen};
use row_texts::Said;
use shared_types::Bytes;
use std::alloc::Global;
use tree_model::{Look, Memory, Path};

fn push_seen(seen: &Result<Seen, LookupFault>, said: &mut Said) {
    match seen {
        Ok(Seen::Absent) => said.push("absent"),
        Ok(Seen::Folder) => said.push("a folder"),
        Ok(Seen::File(bytes)) if bytes.is_empty() => said.push("an empty file"),
        Ok(Seen::File(_)) => said.push("a file"),
        Err(_) => said.push("a fault"),
    }
}

// An empty file that is laid at a path, shared with another.
fn empty_file(alloc: Global, path: &Path) -> Result<Over, Memory> {
    let mut over = Over::new(alloc);
    over.set(alloc, path, Look::File(Bytes::of(alloc, b"")?))?;
    let mut shared = Over::new(alloc);
    shared.follow(alloc, path, &over)?;
    Ok(shared)
}

// What stands at a path as it is, under what is laid over it, and when nothing is laid any more.
fn tell_seen(alloc: Global, site: &mut Site, path: &Path, over: &mut Over, said: &mut Said) {
    push_seen(&site.look(alloc, path), said);
    site.known.lay(over);
    said.push(", ");
    push_seen(&site.look(alloc, path), said);
    site.known.lay(&mut Over::new(alloc));
    said.push(", ");
    push_seen(&site.look(alloc, path), said);
}

fn laid(alloc: Global, said: &mut Said) -> Result<(), Memory> {
    let Ok(path) = Path::parse(alloc, "/q") else {
        said.push("no path");
        return Ok(());
    };
    let mut site = Site::new(alloc)?;
    let mut over = empty_file(alloc, &path)?;
    tell_seen(alloc, &mut site, &path, &mut over, said);
    Ok(())
}

/// A look at an empty file, shared with another, is laid over an empty folder, and then nothing.
pub fn tell_laid(alloc: Global, said: &mut Said) {
    said.push("laid over: ");
    if laid(alloc, said).is_err() {
        said.push("memory");
    }
    said.push("\n");
}
