//! Segments of targets and of what stands for `*`.
ghost use Rattle.std.specs.Prelude.{◌≡◌, ◌∷◌, IfOk, option_map, bytes_eq, drop};
ghost use Rattle.std.specs.List.{list_any};
ghost use Rattle.url.specs.Input.{is_tab_or_new_line, strip_tabs_and_new_lines, lowercase};
ghost use Rattle.node_spec.specs.PackageTargets.{segments, is_invalid_segment, is_invalid_match, leaves_package};
ghost use Rattle.condition_match.specs.Segments.{segments_in, is_separator, is_invalid_name};

use percent_encoding::percent_decode;
use shared_types::Memory;
use std::alloc::Global;

/// Whether a target that begins with `./` has an invalid segment behind that, and so may leave its package.
#[tactic(auto, using(crate::proofs::SegmentLemmas::plain_leaves))]
pub fn leaves_package(alloc: Global, target: &str) -> Result<bool, Memory>
    ensures { IfOk result (λ leaves. leaves ≡ leaves_package target.now) }
{
    let target = target.as_bytes();
    if !holds_dropped(target) {
        return any_behind_first(alloc, target);
    }
    let kept = without_dropped(alloc, target)?;
    any_behind_first(alloc, kept.as_slice())
}

/// Whether what stands for `*` has an invalid segment.
pub fn is_invalid_match(alloc: Global, star: Option<&str>) -> Result<bool, Memory>
    ensures { IfOk result (λ invalid. invalid ≡ is_invalid_match (option_map (λ text. text.now) star.entry)) }
{
    match star {
        None => Ok(false),
        Some(text) => any_invalid(alloc, Some(text.as_bytes())),
    }
}

// A byte that the parser of URLs drops.
fn is_dropped(byte: u8) -> bool
    ensures { result ≡ is_tab_or_new_line byte }
{
    byte == b'\t' || byte == b'\n' || byte == b'\r'
}

fn holds_dropped(text: &[u8]) -> bool
    ensures { result ≡ list_any is_tab_or_new_line text.now }
{
    text.iter().any(|byte| is_dropped(*byte))
}

#[tactic(auto, using(crate::proofs::SegmentLemmas::keeping))]
fn without_dropped(alloc: Global, text: &[u8]) -> Result<Vec<u8>, Memory>
    ensures { IfOk result (λ kept. kept.items ≡ strip_tabs_and_new_lines text.now) }
{
    let mut kept = Vec::new(alloc);
    for byte in text {
        if is_dropped(*byte) {
            continue;
        }
        kept.push(*byte)?;
    }
    Ok(kept)
}

// Whether a segment but the first is invalid.
fn any_behind_first(alloc: Global, text: &[u8]) -> Result<bool, Memory>
    ensures { IfOk result (λ invalid. invalid ≡ list_any is_invalid_segment (drop 1 (segments text.now))) }
{
    any_invalid(alloc, cut_segment(text).1)
}

fn is_separator(byte: u8) -> bool
    ensures { result ≡ is_separator byte }
{
    byte == b'/' || byte == b'\\'
}

// Whether one of the segments of a text is invalid. No text has none.
fn any_invalid(alloc: Global, text: Option<&[u8]>) -> Result<bool, Memory>
    ensures { IfOk result (λ invalid. invalid ≡ list_any is_invalid_segment
        (segments_in (option_map (λ bytes. bytes.now) text.entry))) }
{
    let mut rest = text;
    while let Some(bytes) = rest {
        let (segment, more) = cut_segment(bytes);
        if is_invalid_segment(alloc, segment)? {
            return Ok(true);
        }
        rest = more;
    }
    Ok(false)
}

// The first segment, and what stands behind its separator.
fn cut_segment(text: &[u8]) -> (&[u8], Option<&[u8]>)
    ensures { segments text.now ≡ result.0.now ∷ segments_in (option_map (λ bytes. bytes.now) result.1) }
{
    for (at, byte) in text.iter().enumerate() {
        if is_separator(*byte) {
            return (&text[..at], Some(&text[at + 1..]));
        }
    }
    (text, None)
}

// Whether a segment is empty, `.`, `..` or `node_modules`, with escapes read and in any case.
fn is_invalid_segment(alloc: Global, segment: &[u8]) -> Result<bool, Memory>
    ensures { IfOk result (λ invalid. invalid ≡ is_invalid_segment segment.now) }
{
    let name = percent_decode(segment).into_cow(alloc)?;
    Ok(is_invalid_name(name.as_slice()))
}

fn is_invalid_name(name: &[u8]) -> bool
    ensures { result ≡ is_invalid_name name.now }
{
    name.is_empty()
        || same_name(name, b".".as_slice())
        || same_name(name, b"..".as_slice())
        || same_name(name, b"node_modules".as_slice())
}

fn same_name(name: &[u8], lower: &[u8]) -> bool
    requires { lowercase lower.now ≡ lower.now }
    ensures { result ≡ bytes_eq (lowercase name.now) lower.now }
{
    name.eq_ignore_ascii_case(lower)
}
