//! Percent-escapes of paths, and URLs without their suffixes.
ghost use Rattle.std.specs.Prelude.{◌≡◌, ◌<◌, ◌≤◌, ◌++◌, ◌==◌, All, OnOk, IfOk, string_bytes};
ghost use Rattle.std.specs.List.{list_all, list_any};
ghost use Rattle.std.specs.Prelude.{IsAscii, flat_map, length, take, bytes_eq};
ghost use Rattle.url.specs.Input.{lowercase};
ghost use Rattle.url_spec.specs.WebNames.{escaped, is_plain};
ghost use Rattle.url_spec.specs.Suffixes.{suffix_start, before_suffix, suffix_of, is_suffix_mark};
ghost use Rattle.url_spec.specs.ServedPaths.{holds_escape, read_segment, segments};

use percent_encoding::{
    AsciiSet, NON_ALPHANUMERIC, ascii_set, percent_decode, utf8_percent_encode,
};
use shared_types::Memory;
use std::alloc::Global;

/// The bytes that a path's URL has as escapes.
const ESCAPED: AsciiSet = ascii_set!(
    NON_ALPHANUMERIC
        .remove(b'/')
        .remove(b'-')
        .remove(b'.')
        .remove(b'_')
        .remove(b'~')
        .remove(b'!')
        .remove(b'$')
        .remove(b'&')
        .remove(b'\'')
        .remove(b'(')
        .remove(b')')
        .remove(b'+')
        .remove(b',')
        .remove(b';')
        .remove(b'=')
        .remove(b':')
        .remove(b'@')
);

/// Appends the escaped form of a path.
#[tactic(auto, using(crate::proofs::EscapeLemmas::escaped_is))]
pub fn push_escaped(out: &mut String, path: &str) -> Result<(), Memory>
    ensures grown { OnOk result (string_bytes out.new ≡ string_bytes out.old ++ escaped path.now) }
    ensures bytes { All (λ b. b < 256) path.now }
{
    utf8_percent_encode(path, ESCAPED).append_to(out)
}

/// Whether a URL has each byte of a text as it is.
pub fn is_plain_text(text: &str) -> bool
    ensures { result ≡ list_all is_plain text.now }
{
    text.as_bytes().iter().all(|byte| is_plain(*byte))
}

fn is_plain(byte: u8) -> bool
    ensures { result ≡ is_plain byte }
{
    !ESCAPED.should_percent_encode(byte)
}

/// A URL's text before its query and fragment, and these.
pub fn split_suffix(url: &str) -> (&str, &str)
    requires { IsAscii url.now }
    ensures before { result.0.now ≡ before_suffix url.now }
    ensures suffix { result.1.now ≡ suffix_of url.now }
{
    let at = suffix_start(url.as_bytes());
    (&url[..at], &url[at..])
}

fn suffix_start(url: &[u8]) -> usize
    ensures place { result ≡ suffix_start url.now }
    ensures inside { result ≤ length url.now }
{
    for (at, byte) in url.iter().enumerate() {
        if is_suffix_mark(*byte) {
            return at;
        }
    }
    url.len()
}

/// Whether a query or a fragment begins with this byte.
pub fn is_suffix_mark(byte: u8) -> bool
    ensures { result ≡ is_suffix_mark byte }
{
    byte == b'?' || byte == b'#'
}

/// Whether a `%` stands in a text.
pub fn holds_percent(text: &str) -> bool
    ensures { result ≡ list_any (λ b. b == 37) text.now }
{
    text.as_bytes().contains(&b'%')
}

/// Whether a percent-escape, given in lower case, stands in a text.
pub fn holds_escape(text: &[u8], escape: &[u8]) -> bool
    requires { lowercase escape.now ≡ escape.now }
    ensures { result ≡ holds_escape escape.now text.now }
{
    let mut rest = text;
    while let Some((_, more)) = rest.split_first() {
        if begins_with_escape(rest, escape) {
            return true;
        }
        rest = more;
    }
    false
}

#[tactic(auto, using(crate::proofs::EscapeLemmas::escape_test))]
fn begins_with_escape(text: &[u8], escape: &[u8]) -> bool
    requires { lowercase escape.now ≡ escape.now }
    ensures { result ≡ bytes_eq (lowercase (take 3 text.now)) escape.now }
{
    first_three(text).eq_ignore_ascii_case(escape)
}

fn first_three(text: &[u8]) -> &[u8]
    ensures { result.now ≡ take 3 text.now }
{
    if text.len() < 3 { text } else { &text[..3] }
}

/// A slash and the unescaped bytes of each segment of a text.
pub fn unescape_segments(alloc: Global, text: &str) -> Result<Vec<u8>, Memory>
    ensures { IfOk result (λ bytes. bytes.items ≡ flat_map read_segment (segments text.now)) }
{
    let mut bytes = Vec::new(alloc);
    for segment in text.split('/') {
        push_segment(&mut bytes, segment)?;
    }
    Ok(bytes)
}

/// Appends a slash and the unescaped bytes of a segment.
pub fn push_segment(bytes: &mut Vec<u8>, segment: &str) -> Result<(), Memory>
    ensures { OnOk result (bytes.new.items ≡ bytes.old.items ++ read_segment segment.now) }
{
    bytes.push(b'/')?;
    percent_decode(segment.as_bytes()).append_to(bytes)
}
