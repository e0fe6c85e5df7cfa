//! Looks on one trail, until one of them passes a limit.

use crate::answers::push_lookup_fault;
use crate::site::Site;
use package_lookup::LookupFault;
use row_texts::Said;
use std::alloc::Global;
use tree_model::{Memory, Path};
use tree_spec::MOST_FILE_BYTES;

// The path that a number names.
fn numbered(alloc: Global, number: u64) -> Result<Path, LookupFault> {
    let mut name = Said::new(alloc);
    name.push("/");
    name.push_number(number);
    match Path::parse(alloc, name.as_str()) {
        Ok(path) => Ok(path),
        Err(_) => Err(LookupFault::Memory),
    }
}

fn look_at(alloc: Global, site: &mut Site, number: u64) -> Result<(), LookupFault> {
    let path = numbered(alloc, number)?;
    match site.look(alloc, &path) {
        Ok(_) => Ok(()),
        Err(fault) => Err(fault),
    }
}

// A file at the path that a number names.
fn put(alloc: Global, site: &mut Site, number: u64, bytes: &[u8]) -> Result<(), LookupFault> {
    let path = numbered(alloc, number)?;
    match site.folder.put(&path, Some(bytes)) {
        Ok(true) => Ok(()),
        _ => Err(LookupFault::Memory),
    }
}

// So many files with these bytes.
fn put_all(alloc: Global, site: &mut Site, count: u64, bytes: &[u8]) -> Result<(), LookupFault> {
    for number in 0..count {
        put(alloc, site, number, bytes)?;
    }
    Ok(())
}

// Says how many of so many looks are taken, and what passes a limit.
fn tell_taken(alloc: Global, site: &mut Site, count: u64, said: &mut Said) {
    for number in 0..count {
        if let Err(fault) = look_at(alloc, site, number) {
            said.push_number(number);
            said.push(" looks, then ");
            push_lookup_fault(&fault, said);
            return;
        }
    }
    said.push_number(count);
    said.push(" looks");
}

fn looks_at_nothing(alloc: Global, said: &mut Said) -> Result<(), Memory> {
    let mut site = Site::new(alloc)?;
    tell_taken(alloc, &mut site, 500_000, said);
    Ok(())
}

/// Looks where nothing stands.
pub fn tell_looks_at_nothing(alloc: Global, said: &mut Said) {
    said.push("absent paths: ");
    if looks_at_nothing(alloc, said).is_err() {
        said.push("memory");
    }
    said.push("\n");
}

fn looks_at_files(alloc: Global, said: &mut Said) -> Result<(), Memory> {
    let mut site = Site::new(alloc)?;
    let large = vec![in alloc; b' '; MOST_FILE_BYTES as usize]?;
    if put_all(alloc, &mut site, 16, large.as_slice()).is_ok()
        && put(alloc, &mut site, 16, b" ".as_slice()).is_ok()
    {
        tell_taken(alloc, &mut site, 17, said);
    }
    Ok(())
}

/// Looks at sixteen files of the largest size, and then at one of one byte.
pub fn tell_looks_at_files(alloc: Global, said: &mut Said) {
    said.push("large files: ");
    if looks_at_files(alloc, said).is_err() {
        said.push("memory");
    }
    said.push("\n");
}
