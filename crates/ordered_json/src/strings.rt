ghost use Rattle.std.specs.Prelude.{◌≡◌, MatchOption, IfOk, OnOk, ◌++◌, encode_utf8, IsUtf8};
ghost use Rattle.ordered_json.specs.Scanned.{after_plain, is_plain, NoString, TakesString, NoText, TakesText, IsTextOf};

use crate::escapes::read_escape;
use crate::scan::{after_byte, cut_first, piece_before};
use shared_types::{Memory, Text};
use std::alloc::Global;

const QUOTE: u8 = 34;

const BACKSLASH: u8 = 92;

/// The text of the string whose opening quote stands before the bytes, and the bytes behind the closing one (RFC 8259,
/// 7). None where the string can't be read.
pub fn read_string(alloc: Global, bytes: &[u8]) -> Result<Option<(Text, &[u8])>, Memory>
    ensures { IfOk result (λ found. MatchOption found (NoString bytes.now) (λ x. TakesString bytes.now x.0 x.1.now)) }
{
    let after = skip_plain(bytes);
    let Some(rest) = after_byte(after, QUOTE) else {
        return read_escaped(alloc, bytes, after);
    };
    match std::str::from_utf8(piece_before(bytes, after)) {
        Ok(text) => Ok(Some((Text::of(alloc, text)?, rest))),
        Err(_) => Ok(None),
    }
}

// The same, whatever stands behind the bytes that stand for themselves at the front.
fn read_escaped<'a>(
    alloc: Global,
    bytes: &'a [u8],
    after: &'a [u8],
) -> Result<Option<(Text, &'a [u8])>, Memory>
    requires { after.now ≡ after_plain bytes.now }
    ensures { IfOk result (λ found. MatchOption found (NoString bytes.now) (λ x. TakesString bytes.now x.0 x.1.now)) }
{
    match read_characters(alloc, bytes, after)? {
        None => Ok(None),
        Some((text, rest)) => match utf8_text(alloc, text)? {
            None => Ok(None),
            Some(text) => Ok(Some((text, rest))),
        },
    }
}

fn utf8_text(alloc: Global, bytes: Vec<u8>) -> Result<Option<Text>, Memory>
    ensures { IfOk result (λ found. MatchOption found (IsUtf8 bytes.items → ⊥) (IsTextOf bytes.items)) }
{
    match String::from_utf8(bytes) {
        Ok(text) => {
            let text = Text::from_string(alloc, text)?;
            Ok(Some(text))
        }
        Err(_) => Ok(None),
    }
}

// The same, whether the text is UTF-8 or not.
fn read_characters<'a>(
    alloc: Global,
    bytes: &'a [u8],
    after: &'a [u8],
) -> Result<Option<(Vec<u8>, &'a [u8])>, Memory>
    requires { after.now ≡ after_plain bytes.now }
    ensures { IfOk result (λ found. MatchOption found (NoText bytes.now) (λ x. TakesText bytes.now x.0.items x.1.now)) }
{
    let front = piece_before(bytes, after);
    let mut text = Vec::from_slice(alloc, front)?;
    let mut rest = after;
    loop {
        let after = skip_plain(rest);
        text.extend_from_slice(piece_before(rest, after))?;
        let Some((first, more)) = cut_first(after) else {
            return Ok(None);
        };
        if first == QUOTE {
            return Ok(Some((text, more)));
        }
        if first != BACKSLASH {
            return Ok(None);
        }
        let Some((character, more)) = read_escape(more) else {
            return Ok(None);
        };
        push_character(&mut text, character)?;
        rest = more;
    }
}

fn push_character(text: &mut Vec<u8>, character: char) -> Result<(), Memory>
    ensures { OnOk result (text.new.items ≡ text.old.items ++ encode_utf8 character) }
{
    text.extend_from_slice(character.encode_utf8(&mut [0; 4]).as_bytes())
}

fn skip_plain(bytes: &[u8]) -> &[u8]
    ensures { result.now ≡ after_plain bytes.now }
{
    let mut rest = bytes;
    while let Some((first, more)) = cut_first(rest) {
        if !stands_for_itself(first) {
            return rest;
        }
        rest = more;
    }
    rest
}

fn stands_for_itself(byte: u8) -> bool
    ensures { result ≡ is_plain byte }
{
    byte != QUOTE && byte != BACKSLASH && byte >= 32
}
