ghost use Rattle.std.specs.Prelude.{◌≡◌, ◌==◌, if◌then◌else◌, ◌||◌, ◌++◌, ◌≤◌, ◌+◌, ◌-◌, not, true, false, List, ℕ, []};
ghost use Rattle.std.specs.Prelude.{◌∷◌, None, Some, length, drop, option_map, bytes_eq};
ghost use Rattle.page_spec.specs.declared.kinds.State.TheVariants.{TagOpen};
ghost use Rattle.page_spec.specs.Attributes.{before, behind, skip_whitespace, value, value_at, value_behind};
ghost use Rattle.page_spec.specs.Attributes.{attribute_at, is_in_name, attributes, first_named, attribute};
ghost use Rattle.page_spec.specs.Attributes.{attribute_text};
ghost use Rattle.page_spec.specs.Places.{IsPieceOf, text_at, value_span};
ghost use Rattle.page_spec.specs.Tokenizer.{lowered};
ghost use Rattle.html_scan.specs.Fronts.{test_of, value_of, value_if_named};

use crate::markup::{is_last, next_state};
use crate::names::skip_whitespace;
use crate::runs::{End, behind};
use crate::tags::text_of;
use page_spec::{Piece, PieceKind, State};

/// An attribute's value: its text, and the tag's bytes from the value's begin on.
#[derive(Clone, Copy)]
struct Value<'a> {
    text: &'a [u8],
    tail: &'a [u8],
}

// The bytes before those that are left.
fn text_before<'a>(bytes: &'a [u8], rest: &[u8]) -> &'a [u8]
    requires { length rest.now ≤ length bytes.now }
    ensures { (text : List ℕ) → bytes.now ≡ text ++ rest.now → result.now ≡ text }
{
    &bytes[..bytes.len() - rest.len()]
}

// The bytes up to their end.
fn before(end: End, bytes: &[u8]) -> &[u8]
    ensures { result.now ≡ before (test_of end) bytes.now }
{
    text_before(bytes, behind(end, bytes))
}

// The value behind its `=` and white space.
fn value_at<'a>(bytes: &'a [u8]) -> Value<'a>
    ensures { value_of result ≡ value_at bytes.now }
{
    match bytes.split_first() {
        None => Value {
            text: bytes,
            tail: bytes,
        },
        Some((b, rest)) => {
            if *b == b'"' || *b == b'\'' {
                Value {
                    text: before(End::At(*b), rest),
                    tail: rest,
                }
            } else {
                Value {
                    text: before(End::Unquoted, bytes),
                    tail: bytes,
                }
            }
        }
    }
}

fn no_value<'a>(tail: &'a [u8]) -> Value<'a>
    ensures { value_of result ≡ value [] tail.now }
{
    Value {
        text: b"".as_slice(),
        tail,
    }
}

// The value of an attribute whose name ends before the tail.
fn value_behind<'a>(tail: &'a [u8]) -> Value<'a>
    ensures { value_of result ≡ value_behind tail.now (skip_whitespace tail.now) }
{
    match skip_whitespace(tail).split_first() {
        None => no_value(tail),
        Some((b, rest)) => {
            if *b == b'=' {
                value_at(skip_whitespace(rest))
            } else {
                no_value(tail)
            }
        }
    }
}

fn is_in_name(state: State) -> bool
    ensures { result ≡ is_in_name state }
{
    match state {
        State::AttributeName => true,
        _ => false,
    }
}

// The value of the attribute whose name begins with the first byte, where it is the wanted one.
fn value_if_named<'a>(wanted: &[u8], b: u8, rest: &'a [u8]) -> Option<Value<'a>>
    ensures { option_map value_of result ≡ value_if_named wanted.now b rest.now }
{
    let Some((first, others)) = wanted.split_first() else {
        return None;
    };
    if b.eq_ignore_ascii_case(first) && before(End::Name, rest).eq_ignore_ascii_case(others) {
        Some(value_behind(behind(End::Name, rest)))
    } else {
        None
    }
}

// The value of the first attribute of the name, in the bytes of a tag behind its `<`.
fn first_named<'a>(wanted: &[u8], bytes: &'a [u8]) -> Option<Value<'a>>
    ensures { option_map value_of result ≡ first_named wanted.now (attributes TagOpen bytes.now) }
{
    let mut state = State::TagOpen;
    let mut rest = bytes;
    while let Some((b, more)) = rest.split_first() {
        if is_last(state, *b) {
            return None;
        }
        let next = next_state(state, *b);
        if is_in_name(next) && !is_in_name(state) {
            if let Some(value) = value_if_named(wanted, *b, more) {
                return Some(value);
            }
        }
        state = next;
        rest = more;
    }
    None
}

#[tactic(auto, unfolding(page_spec::specs::Attributes::attribute))]
fn tag_value<'a>(wanted: &[u8], tag: &'a [u8]) -> Option<Value<'a>>
    ensures { option_map value_of result ≡ attribute wanted.now tag.now }
{
    match tag.split_first() {
        None => None,
        Some((_, rest)) => first_named(wanted, rest),
    }
}

// Where a text stands that begins the tail of what ends at the offset.
fn span_in(end: usize, tail: usize, text: usize) -> (usize, usize)
    requires tail { tail ≤ end }
    requires text { text ≤ tail }
    ensures { result ≡ (end - tail, (end - tail) + text) }
{
    let from = end - tail;
    (from, from + text)
}

/// The text of the value of the first attribute of that name in a tag; names are compared without regard to ASCII
/// case, and character references aren't decoded.
pub fn attribute_text<'a>(text: &'a str, piece: Piece, name: &[u8]) -> Option<&'a [u8]>
    requires { IsPieceOf text.now piece }
    ensures { option_map (λ t. t.now) result ≡ attribute_text name.now (text_at text.now piece) }
{
    match tag_value(name, text_of(text, piece)) {
        None => None,
        Some(value) => Some(value.text),
    }
}

/// Where the value of the first attribute of that name stands in a start tag, as offsets in the text; names are
/// compared without regard to ASCII case. An attribute without a value has the empty span behind its name. None where
/// the piece is another one, or has no such attribute.
pub fn attribute(text: &str, piece: Piece, name: &str) -> Option<(usize, usize)>
    requires { IsPieceOf text.now piece }
    ensures { result ≡ value_span name.now text.now piece }
{
    match piece.kind {
        PieceKind::Start => {
            match tag_value(name.as_bytes(), text_of(text, piece)) {
                None => None,
                Some(value) => Some(span_in(piece.to, value.tail.len(), value.text.len())),
            }
        }
        _ => None,
    }
}
