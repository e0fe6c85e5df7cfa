//! Paths from bytes, and the bytes that the path of a file URL spells.
ghost use Rattle.std.specs.Prelude.{◌≡◌, ◌++◌, [], List, ℕ, IfOk, OnOk, MatchOption};
ghost use Rattle.std.specs.Prelude.{IsUtf8, length, codes, ◌==◌, if◌then◌else◌};
ghost use Rattle.tree_spec.specs.Paths.{IsPath};
ghost use Rattle.url_spec.specs.ServedPaths.{read_segment};
ghost use Rattle.url_spec.specs.FileUrls.{spelled_path, escapes_separator, NamesPath};

use crate::escapes::{holds_escape, holds_percent, push_segment};
use shared_types::Memory;
use std::alloc::{AllocError, Global};
use tree_model::{Path, PathFault};

/// The path with these bytes, where they are UTF-8 and spell one.
pub fn path_of(alloc: Global, bytes: &[u8]) -> Result<Option<Path>, Memory>
    ensures { IfOk result (λ found. MatchOption found (IsUtf8 bytes.now → IsPath bytes.now → ⊥)
        (λ path. (path ≡ bytes.now) × IsUtf8 bytes.now × IsPath bytes.now)) }
{
    match std::str::from_utf8(bytes) {
        Err(_) => Ok(None),
        Ok(text) => match Path::parse(alloc, text) {
            Ok(path) => Ok(Some(path)),
            Err(PathFault::BadPath) => Ok(None),
            Err(PathFault::Memory) => Err(AllocError),
        },
    }
}

/// The path that the path of a file URL names, or none.
pub fn named_path(alloc: Global, url_path: &str) -> Result<Option<Path>, Memory>
    ensures { IfOk result (λ found. MatchOption found ((path : List ℕ) → NamesPath url_path.now path → ⊥)
        (NamesPath url_path.now)) }
{
    if holds_percent(url_path) {
        return path_in_segments(alloc, url_path);
    }
    match Path::parse(alloc, url_path) {
        Ok(path) => Ok(Some(path)),
        Err(PathFault::BadPath) => path_in_segments(alloc, url_path),
        Err(PathFault::Memory) => Err(AllocError),
    }
}

// The same, segment by segment.
fn path_in_segments(alloc: Global, url_path: &str) -> Result<Option<Path>, Memory>
    ensures { IfOk result (λ found. MatchOption found ((path : List ℕ) → NamesPath url_path.now path → ⊥)
        (NamesPath url_path.now)) }
{
    if escapes_separator(url_path) {
        return Ok(None);
    }
    let bytes = spelled_path(alloc, url_path)?;
    path_of(alloc, bytes.as_slice())
}

/// Whether an escape gives a `/` or a `\`.
pub fn escapes_separator(url_path: &str) -> bool
    ensures { result ≡ escapes_separator url_path.now }
{
    if !holds_percent(url_path) {
        return false;
    }
    let bytes = url_path.as_bytes();
    holds_escape(bytes, b"%2f") || holds_escape(bytes, b"%5c")
}

fn spelled_path(alloc: Global, url_path: &str) -> Result<Vec<u8>, Memory>
    ensures { IfOk result (λ bytes. bytes.items ≡ spelled_path url_path.now) }
{
    let mut bytes = Vec::new(alloc);
    for name in url_path.split('/') {
        push_name(&mut bytes, name)?;
    }
    or_root(bytes)
}

fn or_root(bytes: Vec<u8>) -> Result<Vec<u8>, Memory>
    ensures { IfOk result (λ path. path.items ≡ (if length bytes.items == 0 then codes "/" else bytes.items)) }
{
    let mut path = bytes;
    if path.is_empty() {
        path.push(b'/')?;
    }
    Ok(path)
}

fn push_name(bytes: &mut Vec<u8>, name: &str) -> Result<(), Memory>
    ensures { OnOk result (bytes.new.items ≡ bytes.old.items ++ (if length name.now == 0 then []
        else read_segment name.now)) }
{
    if name.is_empty() {
        return Ok(());
    }
    push_segment(bytes, name)
}
