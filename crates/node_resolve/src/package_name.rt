//! The package name at the front of a bare specifier, and what stands behind it (Node.js, ECMAScript modules:
//! PACKAGE_RESOLVE).
ghost use Rattle.std.specs.Prelude.{◌≡◌, ◌+◌, ◌<◌, length, true};
ghost use Rattle.std.specs.Prelude.{false, IfOk, IfSome, MatchOption, IsCharBoundary, bytes_eq};
ghost use Rattle.std.specs.List.{list_any};
ghost use Rattle.url_spec.specs.ServedPaths.{segments};
ghost use Rattle.node_spec.specs.PackageResolve as spec;
ghost use Rattle.node_resolve.specs.Asked.{IsSplit, IsSubpath};

use crate::texts::begins;
use shared_types::{Memory, Text};
use std::alloc::Global;

/// A package's name, with a subpath, which is `.` or begins with `./`.
#[derive(Drop)]
pub struct Subpath<'a> {
    pub name: &'a str,
    pub subpath: Text,
}

impl<'a> Subpath<'a> {
    /// The parts of a bare specifier; none where it lacks a name.
    pub fn of(alloc: Global, text: &'a str) -> Result<Option<Subpath<'a>>, Memory>
        ensures parts { IfOk result (λ found. MatchOption found (spec.lacks_name text.now ≡ true) (IsSplit text.now)) }
        ensures relative { IfOk result (λ found. IfSome found (λ asked. IsSubpath asked.subpath)) }
    {
        let Some(length) = name_length(text) else {
            return Ok(None);
        };
        let mut subpath = String::from_str(alloc, ".")?;
        subpath.push_str(&text[length..])?;
        Ok(Some(Subpath {
            name: &text[..length],
            subpath: Text::from_string(alloc, subpath)?,
        }))
    }
}

/// How long the name is; none where the text begins with `@` and has no `/`.
fn name_length(text: &str) -> Option<usize>
    ensures { MatchOption result (spec.lacks_name text.now ≡ true) (λ length. (spec.lacks_name text.now ≡ false)
        × (length ≡ spec.name_length text.now) × IsCharBoundary text.now length) }
{
    let first = until_slash(text);
    if !begins(text, "@") {
        return Some(first);
    }
    if first == text.len() {
        return None;
    }
    Some(first + 1 + until_slash(&text[first + 1..]))
}

/// How much stands before the first `/`.
fn until_slash(text: &str) -> usize
    ensures is { result ≡ spec.until_slash text.now }
    ensures cuts { IsCharBoundary text.now result
        × (result < length text.now → IsCharBoundary text.now (result + 1)) }
{
    match text.find('/') {
        None => text.len(),
        Some(at) => at,
    }
}

/// Whether a package may have this name.
pub fn is_package_name(name: &str) -> bool
    ensures { result ≡ spec.is_package_name name.now }
{
    !begins(name, ".") && !holds_refused_byte(name) && !holds_refused_part(name)
}

fn holds_refused_byte(name: &str) -> bool
    ensures { result ≡ list_any spec.is_refused_byte name.now }
{
    name.as_bytes().iter().any(|byte| is_refused_byte(*byte))
}

fn is_refused_byte(byte: u8) -> bool
    ensures { result ≡ spec.is_refused_byte byte }
{
    byte == b'\\' || byte == b'%' || byte == b'?' || byte == b'#' || byte < 33
}

fn holds_refused_part(name: &str) -> bool
    ensures { result ≡ list_any spec.is_refused_part (segments name.now) }
{
    name.split('/').any(|part| is_refused_part(part))
}

fn is_refused_part(part: &str) -> bool
    ensures { result ≡ spec.is_refused_part part.now }
{
    part.is_empty() || part == "." || part == ".."
}
