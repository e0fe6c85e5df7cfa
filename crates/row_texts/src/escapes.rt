//! Escapes: what can't be seen, is no text, or is long.

use crate::fault::{RowFault, malformed};
use crate::numbers::{number_of, range_of};
use std::alloc::Global;

/// How many times a repeated text stands in what is put behind it at once.
const BLOCK: u64 = 1_024;

/// A text that is said once for each number from the first one to the last, cut where the number stands in it.
#[derive(Drop)]
struct Repeat {
    first: u64,
    beyond: u64,
    parts: Vec<Vec<u8>>,
}

/// The bytes that came of the escapes so far.
#[derive(Drop)]
struct Unescaping {
    bytes: Vec<u8>,
    repeat: Option<Repeat>,
    /// What stands for `\#` outside of a repeat.
    turn: Option<u64>,
}

impl Unescaping {
    // Where the next bytes go.
    fn open(&mut self) -> &mut Vec<u8> {
        if let Some(repeat) = &mut self.repeat {
            if let Some(part) = repeat.parts.last_mut() {
                return part;
            }
        }
        &mut self.bytes
    }

    fn push(&mut self, bytes: &[u8]) -> Result<(), RowFault> {
        self.open().extend_from_slice(bytes)?;
        Ok(())
    }

    // What stands behind a backslash, of which the first character says what it is.
    fn push_escape(&mut self, alloc: Global, escape: &str) -> Result<(), RowFault> {
        let mut characters = escape.chars();
        let first = characters.next();
        let rest = characters.as_str();
        match first {
            Some('n') => self.push_with(b"\n".as_slice(), rest),
            Some('r') => self.push_with(b"\r".as_slice(), rest),
            Some('t') => self.push_with(b"\t".as_slice(), rest),
            Some('\n') => self.push(rest.as_bytes()),
            Some('x') => self.push_byte(rest),
            Some('u') => self.push_character(alloc, rest),
            Some('{') => self.begin(alloc, rest),
            Some('}') => self.end(alloc, rest),
            Some('#') => self.push_turn(alloc, rest),
            _ => Err(malformed("an escape is none")),
        }
    }

    fn push_with(&mut self, bytes: &[u8], rest: &str) -> Result<(), RowFault> {
        self.push(bytes)?;
        self.push(rest.as_bytes())
    }

    fn push_byte(&mut self, escape: &str) -> Result<(), RowFault> {
        let mut characters = escape.chars();
        match (digit_of(characters.next()), digit_of(characters.next())) {
            (Some(high), Some(low)) => { self.push_with(&[(high << 4) | low], characters.as_str()) }
            _ => Err(malformed("a byte wants two digits")),
        }
    }

    fn push_character(&mut self, alloc: Global, escape: &str) -> Result<(), RowFault> {
        let Some((digits, rest)) = between(escape, '{', '}') else {
            return Err(malformed("a character wants its number in braces"));
        };
        let Ok(code) = u32::from_str_radix(digits, 16) else {
            return Err(malformed("a character wants its number in braces"));
        };
        let Some(character) = char::from_u32(code) else {
            return Err(malformed("a character's number is none"));
        };
        let mut text = String::new(alloc);
        text.push(character)?;
        self.push_with(text.as_bytes(), rest)
    }

    fn begin(&mut self, alloc: Global, escape: &str) -> Result<(), RowFault> {
        let Some((turns, rest)) = escape.split_once('*') else {
            return Err(malformed("a repeat wants a count and `*`"));
        };
        if self.repeat.is_some() {
            return Err(malformed("a repeat stands in a repeat"));
        }
        let (first, beyond) = turns_of(turns)?;
        self.repeat = Some(Repeat {
            first,
            beyond,
            parts: vec![in alloc; Vec::new(alloc)]?,
        });
        self.push(rest.as_bytes())
    }

    fn end(&mut self, alloc: Global, rest: &str) -> Result<(), RowFault> {
        let Some(repeat) = self.repeat.take() else {
            return Err(malformed("a repeat ends that didn't begin"));
        };
        match repeat.parts.as_slice() {
            [part] => push_blocks(
                alloc,
                &mut self.bytes,
                part.as_slice(),
                repeat.beyond.saturating_sub(repeat.first),
            )?,
            _ => push_turns(alloc, &mut self.bytes, &repeat)?,
        }
        self.push(rest.as_bytes())
    }

    fn push_turn(&mut self, alloc: Global, rest: &str) -> Result<(), RowFault> {
        if let Some(repeat) = &mut self.repeat {
            repeat.parts.push(Vec::new(alloc))?;
            return self.push(rest.as_bytes());
        }
        let Some(turn) = self.turn else {
            return Err(malformed("`\\#` stands in no repeat"));
        };
        let number = format!(in alloc; "{turn}")?;
        self.push_with(number.as_bytes(), rest)
    }
}

// The numbers of `COUNT` turns, which begin with 0, or of `FIRST-LAST`: the first one, and the one behind the last.
fn turns_of(turns: &str) -> Result<(u64, u64), RowFault> {
    if !turns.contains('-') {
        return Ok((0, number_of(turns)?));
    }
    let (first, last) = range_of(turns)?;
    Ok((first, last.saturating_add(1)))
}

fn push_times(bytes: &mut Vec<u8>, part: &[u8], times: u64) -> Result<(), RowFault> {
    for _ in 0..times {
        bytes.extend_from_slice(part)?;
    }
    Ok(())
}

// A text so many times, most of them many at once, since a large file is one byte millions of times.
fn push_blocks(
    alloc: Global,
    bytes: &mut Vec<u8>,
    part: &[u8],
    times: u64,
) -> Result<(), RowFault> {
    let mut block = Vec::new(alloc);
    push_times(&mut block, part, BLOCK)?;
    push_times(bytes, block.as_slice(), times / BLOCK)?;
    push_times(bytes, part, times % BLOCK)
}

fn push_turns(alloc: Global, bytes: &mut Vec<u8>, repeat: &Repeat) -> Result<(), RowFault> {
    for turn in repeat.first..repeat.beyond {
        push_parts(alloc, bytes, repeat.parts.as_slice(), turn)?;
    }
    Ok(())
}

// The parts, with the number of the turn between each two.
fn push_parts(
    alloc: Global,
    bytes: &mut Vec<u8>,
    parts: &[Vec<u8>],
    turn: u64,
) -> Result<(), RowFault> {
    let mut is_first = true;
    for part in parts {
        if !is_first {
            let number = format!(in alloc; "{turn}")?;
            bytes.extend_from_slice(number.as_bytes())?;
        }
        bytes.extend_from_slice(part.as_slice())?;
        is_first = false;
    }
    Ok(())
}

fn digit_of(character: Option<char>) -> Option<u8> {
    match character?.to_digit(16) {
        Some(digit) if digit < 16 => Some(digit as u8),
        _ => None,
    }
}

// What stands between an opening mark, with which the text begins, and the next closing one, and what comes behind.
fn between(text: &str, opening: char, closing: char) -> Option<(&str, &str)> {
    text.strip_prefix(opening)?.split_once(closing)
}

/// The bytes of a text with escapes. `\#` stands for the number of the turn in a repeat, and for `turn` outside of one.
pub fn unescaped(alloc: Global, text: &str, turn: Option<u64>) -> Result<Vec<u8>, RowFault> {
    let mut got = Unescaping {
        bytes: Vec::new(alloc),
        repeat: None,
        turn,
    };
    let mut is_plain = true;
    for piece in text.split('\\') {
        if is_plain {
            got.push(piece.as_bytes())?;
            is_plain = false;
        } else if piece.is_empty() {
            got.push(b"\\".as_slice())?;
            is_plain = true;
        } else {
            got.push_escape(alloc, piece)?;
        }
    }
    if is_plain || got.repeat.is_some() {
        return Err(malformed("an escape or a repeat doesn't end"));
    }
    Ok(got.bytes)
}

/// The same where it must be a text.
pub fn unescaped_text(alloc: Global, text: &str, turn: Option<u64>) -> Result<String, RowFault> {
    let bytes = unescaped(alloc, text, turn)?;
    match std::str::from_utf8(bytes.as_slice()) {
        Ok(text) => Ok(String::from_str(alloc, text)?),
        Err(_) => Err(malformed("bytes are no text")),
    }
}
