ghost use Rattle.std.specs.Prelude.{◌≡◌, ◌<◌, length, MatchResult, IfOk, Ok};
ghost use Rattle.json_spec.specs.Taken.{taken};
ghost use Rattle.json_spec.specs.Grammar.{ReadsName};
ghost use Rattle.ordered_json.specs.IsJson.{HasJson};
ghost use Rattle.ordered_json.specs.Shown.{json_of};
ghost use Rattle.ordered_json.specs.Outcomes.{Fails, IsFault, IsWhole, WholeFails, ReadsValue, Unread};
ghost use Rattle.ordered_json.specs.Outcomes.{IsScalar, IsNoScalar, ReadsList, NoList, ReadsObject, NoObject};

use crate::fault::{JsonFault, Stop};
use crate::numbers::read_number;
use crate::scan::{after_byte, after_word, cut_first, skip_space};
use crate::settling::settle;
use crate::strings::read_string;
use crate::value::{Items, Members, Value};
use shared_types::Text;
use std::alloc::Global;
use tree_spec::MOST_DEPTH;

/// The value of a JSON text (RFC 8259), or its first fault.
pub fn read(alloc: Global, bytes: &[u8]) -> Result<Value, JsonFault>
    ensures { MatchResult result (HasJson bytes.now) (IsFault bytes.now) }
{
    match read_whole(alloc, bytes) {
        Ok(value) => Ok(value),
        Err(Stop::Unreadable(left)) => Err(JsonFault::NotJson {
            at: bytes.len().saturating_sub(left),
        }),
        Err(Stop::Deep(left)) => Err(JsonFault::TooDeep {
            at: bytes.len().saturating_sub(left),
        }),
        Err(Stop::NoMemory) => Err(JsonFault::Memory),
    }
}

// A value, and nothing but white space behind it.
fn read_whole(alloc: Global, bytes: &[u8]) -> Result<Value, Stop>
    ensures { MatchResult result (λ value. IsWhole bytes.now (Ok (json_of value))) (WholeFails bytes.now) }
{
    let (value, rest) = read_value(alloc, MOST_DEPTH, skip_space(bytes))?;
    let rest = skip_space(rest);
    if rest.is_empty() {
        Ok(value)
    } else {
        Err(Stop::Unreadable(rest.len()))
    }
}

// The value at the front, in which this many brackets may be opened, and the bytes behind it. The calls within each
// other are as many as the brackets that are open.
#[cycle(read)]
fn read_value(alloc: Global, depth: usize, bytes: &[u8]) -> Result<(Value, &[u8]), Stop>
    ensures reads { MatchResult result (λ x. ReadsValue depth bytes.now x.0 x.1.now) (Unread depth bytes.now) }
    ensures shorter { IfOk result (λ x. length x.1.now < length bytes.now) }
{
    let Some((first, rest)) = cut_first(bytes) else {
        return Err(Stop::Unreadable(0));
    };
    if first == b'"' {
        return match read_string(alloc, rest)? {
            Some((text, rest)) => Ok((Value::Text(text), rest)),
            None => Err(Stop::Unreadable(bytes.len())),
        };
    }
    if first == b'[' {
        if depth == 0 {
            return Err(Stop::Deep(bytes.len()));
        }
        let (values, rest) = read_items(alloc, depth - 1, rest)?;
        return Ok((Value::List(Items::from_vec(values)), rest));
    }
    if first == b'{' {
        if depth == 0 {
            return Err(Stop::Deep(bytes.len()));
        }
        let (pairs, rest) = read_members(alloc, depth - 1, rest)?;
        return Ok((Value::Object(Members::from_vec(pairs)), rest));
    }
    read_scalar(alloc, bytes)
}

// The values of a list whose opening bracket stands before the bytes.
#[cycle(read)]
fn read_items(alloc: Global, depth: usize, bytes: &[u8]) -> Result<(Vec<Value>, &[u8]), Stop>
    ensures reads { MatchResult result (λ x. ReadsList depth bytes.now x.0.items x.1.now) (NoList depth bytes.now) }
    ensures shorter { IfOk result (λ x. length x.1.now < length bytes.now) }
{
    let mut rest = skip_space(bytes);
    if let Some(end) = after_byte(rest, b']') {
        return Ok((Vec::new(alloc), end));
    }
    let mut values = Vec::with_capacity(alloc, 1)?;
    loop {
        let (value, after) = read_value(alloc, depth, rest)?;
        values.push(value)?;
        let after = skip_space(after);
        if let Some(end) = after_byte(after, b']') {
            return Ok((values, end));
        }
        let Some(more) = after_byte(after, b',') else {
            return Err(Stop::Unreadable(after.len()));
        };
        rest = skip_space(more);
    }
}

// The members of an object whose opening bracket stands before the bytes. A key that was there takes the later value.
#[cycle(read)]
fn read_members(
    alloc: Global,
    depth: usize,
    bytes: &[u8],
) -> Result<(Vec<(Text, Value)>, &[u8]), Stop>
    ensures reads { MatchResult result (λ x. ReadsObject depth bytes.now x.0.items x.1.now) (NoObject depth bytes.now) }
    ensures shorter { IfOk result (λ x. length x.1.now < length bytes.now) }
{
    let mut rest = skip_space(bytes);
    if let Some(end) = after_byte(rest, b'}') {
        return Ok((Vec::new(alloc), end));
    }
    let mut written = Vec::with_capacity(alloc, 1)?;
    loop {
        let (key, after) = read_name(alloc, rest)?;
        let (value, after) = read_value(alloc, depth, skip_space(after))?;
        written.push((key, value))?;
        let after = skip_space(after);
        if let Some(end) = after_byte(after, b'}') {
            return Ok((settle(alloc, written)?, end));
        }
        let Some(more) = after_byte(after, b',') else {
            return Err(Stop::Unreadable(after.len()));
        };
        rest = skip_space(more);
    }
}

// A value that is no string, list or object.
#[inline(always)]
fn read_scalar(alloc: Global, bytes: &[u8]) -> Result<(Value, &[u8]), Stop>
    ensures { MatchResult result (λ x. IsScalar bytes.now x.0 x.1.now) (IsNoScalar bytes.now) }
{
    if let Some(rest) = after_word(bytes, b"true".as_slice()) {
        return Ok((Value::Bool(true), rest));
    }
    if let Some(rest) = after_word(bytes, b"false".as_slice()) {
        return Ok((Value::Bool(false), rest));
    }
    if let Some(rest) = after_word(bytes, b"null".as_slice()) {
        return Ok((Value::Null, rest));
    }
    match read_number(alloc, bytes)? {
        Some((number, rest)) => Ok((Value::Number(number), rest)),
        None => Err(Stop::Unreadable(bytes.len())),
    }
}

// A key and its colon.
#[inline(always)]
fn read_name(alloc: Global, bytes: &[u8]) -> Result<(Text, &[u8]), Stop>
    ensures reads { MatchResult result (λ x. ReadsName bytes.now (taken x.0 x.1.now)) (Fails (ReadsName bytes.now)) }
    ensures shorter { IfOk result (λ x. length x.1.now < length bytes.now) }
{
    let Some(inner) = after_byte(bytes, b'"') else {
        return Err(Stop::Unreadable(bytes.len()));
    };
    let Some((key, rest)) = read_string(alloc, inner)? else {
        return Err(Stop::Unreadable(bytes.len()));
    };
    let rest = skip_space(rest);
    match after_byte(rest, b':') {
        Some(after) => Ok((key, after)),
        None => Err(Stop::Unreadable(rest.len())),
    }
}
