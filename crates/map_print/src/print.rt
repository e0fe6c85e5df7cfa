ghost use Rattle.std.specs.Prelude.{◌≡◌, ◌<◌, ◌≤◌, ◌∷◌, ◌++◌, [], length, Err, IfOk, IsTrue, OnOk, codes, false, true};
ghost use Rattle.tree_spec.specs.Limits.{limit_number};
ghost use Rattle.tree_spec.specs.declared.LimitName.TheVariants.{Map};
ghost use Rattle.json_spec.specs.PrintedString.{quoted};
ghost use Rattle.json_spec.specs.Value.{an_object, no_members};
ghost use Rattle.json_spec.specs.PrintedValue.{line, printed, printed_members};
ghost use Rattle.import_map_spec.specs.ParsedMap.{ParsedMap};
ghost use Rattle.layout_spec.specs.PrintedMap.{with_part, map_text};
ghost use Rattle.layout_spec.specs.ShortForms.{folder_text, short};
ghost use Rattle.scope_builder.specs.Lists.{Lists};
ghost use Rattle.map_print.specs.PlainRests.{is_plain_rest};
ghost use Rattle.map_print.specs.Printed.{IsPrinted};
ghost use Rattle.map_print.specs.PrintedLists.{value_text, mappings_value, scopes_members};
ghost use Rattle.map_print.specs.PrintedLists.{layout_value, pairs_members};
ghost use Rattle.ordered_json.specs.Appending.{Appends};

use crate::least_size::is_far_too_large;
use crate::map_folder::MapFolder;
use ordered_json::print_text;
use scope_builder::{Layout, Mappings};
use shared_types::{Memory, Text};
use std::alloc::{AllocError, Global};
use tree_spec::MOST_MAP_BYTES;
use web_url::WebUrl;

/// Why a map isn't printed.
#[derive(Clone, Copy, Debug, PartialEq, Eq)]
pub enum PrintFault {
    /// The text has more than 67,108,864 bytes.
    MapTooLarge,
    /// Want of memory.
    Memory,
}

impl From<AllocError> for PrintFault {
    ghost use Rattle.std.specs.Prelude.{◌≡◌};
    ghost use Rattle.map_print.specs.declared.print.PrintFault.TheVariants.{Memory};

    ghost from_gives = { λ _ fault. fault ≡ Memory };

    fn from(_memory: AllocError) -> PrintFault {
        PrintFault::Memory
    }
}

// What the members of an object have.
#[derive(Clone, Copy)]
enum Values {
    Addresses,
    Digests,
}

/// The text of a map: one object, each member on its own line, two spaces deeper than its object. Addresses and the keys
/// of scopes are written beside the page whose URL is the map base. A text that is too large even if nothing is escaped
/// in it isn't built.
pub fn print_map(
    alloc: Global,
    layout: &Layout,
    integrity: &Mappings,
    map_base: &WebUrl,
) -> Result<Vec<u8>, PrintFault>
    ensures printed { IfOk result (λ bytes. IsPrinted map_base.now layout.now integrity.now bytes.items) }
    ensures too_large { result ≡ Err PrintFault.MapTooLarge
        → (m : ParsedMap) → Lists layout.now integrity.now m → limit_number Map < length (map_text map_base.now m) }
{
    let folder = MapFolder::of(alloc, map_base)?;
    if is_far_too_large(layout, integrity, folder.size()) {
        return Err(PrintFault::MapTooLarge);
    }
    let bytes = text_of(alloc, layout, integrity, &folder)?;
    if is_too_large(bytes.as_slice()) {
        return Err(PrintFault::MapTooLarge);
    }
    Ok(bytes)
}

fn is_too_large(bytes: &[u8]) -> bool
    ensures above { IsTrue result → limit_number Map < length bytes.now }
    ensures within { result ≡ false → length bytes.now ≤ limit_number Map }
{
    bytes.len() > MOST_MAP_BYTES
}

// The text, however large it is.
fn text_of(
    alloc: Global,
    layout: &Layout,
    integrity: &Mappings,
    folder: &MapFolder,
) -> Result<Vec<u8>, Memory>
    ensures { IfOk result (λ bytes. bytes.items
        ≡ printed 0 (layout_value folder.now layout.now integrity.now) (10 ∷ [])) }
{
    let mut out = Vec::new(alloc);
    push_map(alloc, &mut out, layout, integrity, folder)?;
    Ok(out)
}

fn push_map(
    alloc: Global,
    out: &mut Vec<u8>,
    layout: &Layout,
    integrity: &Mappings,
    folder: &MapFolder,
) -> Result<(), Memory>
    ensures { OnOk result (Appends out.old.items out.new.items
        (λ rest. printed 0 (layout_value folder.now layout.now integrity.now) (10 ∷ rest))) }
{
    out.extend_from_slice(b"{\n  \"imports\": ".as_slice())?;
    push_mappings(
        alloc,
        out,
        1,
        Values::Addresses,
        layout.imports.as_slice(),
        folder,
    )?;
    push_scopes_member(alloc, out, layout.scopes.as_slice(), folder)?;
    push_integrity_member(alloc, out, integrity.as_slice(), folder)?;
    out.extend_from_slice(b"\n}\n".as_slice())
}

fn push_scopes_member(
    alloc: Global,
    out: &mut Vec<u8>,
    scopes: &[(Text, Mappings)],
    folder: &MapFolder,
) -> Result<(), Memory>
    ensures { OnOk result (Appends out.old.items out.new.items
        (printed_members 1 (with_part (codes "scopes") (scopes_members folder.now scopes.now) no_members))) }
{
    if scopes.is_empty() {
        return Ok(());
    }
    out.extend_from_slice(b",\n  \"scopes\": ".as_slice())?;
    push_scopes(alloc, out, scopes, folder)
}

fn push_integrity_member(
    alloc: Global,
    out: &mut Vec<u8>,
    pairs: &[(Text, Text)],
    folder: &MapFolder,
) -> Result<(), Memory>
    ensures { OnOk result (Appends out.old.items out.new.items
        (printed_members 1
        (with_part (codes "integrity") (pairs_members Values.Digests folder.now pairs.now) no_members))) }
{
    if pairs.is_empty() {
        return Ok(());
    }
    out.extend_from_slice(b",\n  \"integrity\": ".as_slice())?;
    push_mappings(alloc, out, 1, Values::Digests, pairs, folder)
}

fn push_scopes(
    alloc: Global,
    out: &mut Vec<u8>,
    scopes: &[(Text, Mappings)],
    folder: &MapFolder,
) -> Result<(), Memory>
    ensures { OnOk result (Appends out.old.items out.new.items
        (printed 1 (an_object (scopes_members folder.now scopes.now)))) }
{
    let Some((first, more)) = scopes.split_first() else {
        return out.extend_from_slice(b"{}".as_slice());
    };
    out.push(b'{')?;
    push_scope(alloc, out, first, folder)?;
    push_more_scopes(alloc, out, more, folder)?;
    push_close(out, 1)
}

// What stands behind the first scope.
fn push_more_scopes(
    alloc: Global,
    out: &mut Vec<u8>,
    scopes: &[(Text, Mappings)],
    folder: &MapFolder,
) -> Result<(), Memory>
    ensures { OnOk result (Appends out.old.items out.new.items
        (printed_members 2 (scopes_members folder.now scopes.now))) }
{
    for scope in scopes {
        out.push(b',')?;
        push_scope(alloc, out, scope, folder)?;
    }
    Ok(())
}

fn push_scope(
    alloc: Global,
    out: &mut Vec<u8>,
    scope: &(Text, Mappings),
    folder: &MapFolder,
) -> Result<(), Memory>
    ensures { OnOk result (Appends out.old.items out.new.items
        (λ rest. line 2 (quoted (short folder.now scope.now.0)
        ++ (codes ": " ++ printed 2 (mappings_value Values.Addresses folder.now scope.now.1) rest)))) }
{
    push_line(out, 2)?;
    push_short(alloc, out, scope.0.as_str(), folder)?;
    out.extend_from_slice(b": ".as_slice())?;
    push_mappings(alloc, out, 2, Values::Addresses, scope.1.as_slice(), folder)
}

// An object of texts whose opening brace stands on a line at this level.
fn push_mappings(
    alloc: Global,
    out: &mut Vec<u8>,
    level: usize,
    values: Values,
    pairs: &[(Text, Text)],
    folder: &MapFolder,
) -> Result<(), Memory>
    requires { level < 3 }
    ensures { OnOk result (Appends out.old.items out.new.items
        (printed level (mappings_value values folder.now pairs.now))) }
{
    let Some((first, more)) = pairs.split_first() else {
        return out.extend_from_slice(b"{}".as_slice());
    };
    out.push(b'{')?;
    push_pair(alloc, out, level + 1, values, first, folder)?;
    push_more_pairs(alloc, out, level + 1, values, more, folder)?;
    push_close(out, level)
}

// What stands behind the first pair.
fn push_more_pairs(
    alloc: Global,
    out: &mut Vec<u8>,
    level: usize,
    values: Values,
    pairs: &[(Text, Text)],
    folder: &MapFolder,
) -> Result<(), Memory>
    ensures { OnOk result (Appends out.old.items out.new.items
        (printed_members level (pairs_members values folder.now pairs.now))) }
{
    for pair in pairs {
        out.push(b',')?;
        push_pair(alloc, out, level, values, pair, folder)?;
    }
    Ok(())
}

fn push_pair(
    alloc: Global,
    out: &mut Vec<u8>,
    level: usize,
    values: Values,
    pair: &(Text, Text),
    folder: &MapFolder,
) -> Result<(), Memory>
    ensures { OnOk result (Appends out.old.items out.new.items
        (λ rest. line level (quoted pair.now.0
        ++ (codes ": " ++ (quoted (value_text values folder.now pair.now.1) ++ rest))))) }
{
    push_key(out, level, pair.0.as_str())?;
    push_value(alloc, out, values, pair.1.as_str(), folder)
}

fn push_value(
    alloc: Global,
    out: &mut Vec<u8>,
    values: Values,
    text: &str,
    folder: &MapFolder,
) -> Result<(), Memory>
    ensures { OnOk result (out.new.items ≡ out.old.items ++ quoted (value_text values folder.now text.now)) }
{
    match values {
        Values::Addresses => push_short(alloc, out, text, folder),
        Values::Digests => print_text(out, text),
    }
}

// The short form of a URL.
fn push_short(alloc: Global, out: &mut Vec<u8>, url: &str, folder: &MapFolder) -> Result<(), Memory>
    ensures { OnOk result (out.new.items ≡ out.old.items ++ quoted (short folder.now url.now)) }
{
    match folder.behind(url) {
        None => print_text(out, url),
        Some(rest) => push_beside(alloc, out, url, rest, folder),
    }
}

// The same of a URL that begins with the folder.
fn push_beside(
    alloc: Global,
    out: &mut Vec<u8>,
    url: &str,
    rest: &str,
    folder: &MapFolder,
) -> Result<(), Memory>
    requires { url.now ≡ folder_text folder.now ++ rest.now }
    ensures { OnOk result (out.new.items ≡ out.old.items ++ quoted (short folder.now url.now)) }
{
    if folder.is_plain(rest) {
        push_plain(out, rest)
    } else {
        push_parsed(alloc, out, url, rest, folder)
    }
}

// The same, where it has to be parsed.
fn push_parsed(
    alloc: Global,
    out: &mut Vec<u8>,
    url: &str,
    rest: &str,
    folder: &MapFolder,
) -> Result<(), Memory>
    requires { url.now ≡ folder_text folder.now ++ rest.now }
    ensures { OnOk result (out.new.items ≡ out.old.items ++ quoted (short folder.now url.now)) }
{
    match folder.short(alloc, url, rest)? {
        None => print_text(out, url),
        Some(text) => print_text(out, text.as_str()),
    }
}

// `./` and a rest in which nothing is escaped.
fn push_plain(out: &mut Vec<u8>, rest: &str) -> Result<(), Memory>
    requires { is_plain_rest rest.now ≡ true }
    ensures { OnOk result (out.new.items ≡ out.old.items ++ quoted (codes "./" ++ rest.now)) }
{
    out.extend_from_slice(b"\"./".as_slice())?;
    out.extend_from_slice(rest.as_bytes())?;
    out.push(b'"')?;
    Ok(())
}

fn push_key(out: &mut Vec<u8>, level: usize, key: &str) -> Result<(), Memory>
    ensures { OnOk result (Appends out.old.items out.new.items
        (λ rest. line level (quoted key.now ++ (codes ": " ++ rest)))) }
{
    push_line(out, level)?;
    print_text(out, key)?;
    out.extend_from_slice(b": ".as_slice())
}

fn push_close(out: &mut Vec<u8>, level: usize) -> Result<(), Memory>
    ensures { OnOk result (Appends out.old.items out.new.items (λ rest. line level (125 ∷ rest))) }
{
    push_line(out, level)?;
    out.push(b'}')?;
    Ok(())
}

fn push_line(out: &mut Vec<u8>, level: usize) -> Result<(), Memory>
    ensures { OnOk result (Appends out.old.items out.new.items (line level)) }
{
    out.push(b'\n')?;
    for _ in 0..level {
        out.extend_from_slice(b"  ".as_slice())?;
    }
    Ok(())
}
