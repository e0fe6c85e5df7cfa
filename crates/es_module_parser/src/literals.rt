ghost use Rattle.std.specs.Prelude.{◌≡◌, ◌<◌, ◌≤◌, [], ◌∷◌, true, false, MatchOption, IfOk, drop, ◌==◌, ◌||◌};
ghost use Rattle.std.specs.Prelude.{if◌then◌else◌};
ghost use Rattle.std.specs.String.{string_bytes as bytes};
ghost use Rattle.std.specs.Str.{chars};
ghost use Rattle.std.specs.Char.{is_ascii_digit};
ghost use Rattle.module_spec.specs.Characters.{is_hex_digit, hex_digits, is_wide_line_end, begins_digit};
ghost use Rattle.module_spec.specs.StringValues.{begins_line_feed, escaped_character, string_value, between_quotes};
ghost use Rattle.std.specs.Char.Utf16.{is_high_surrogate, is_low_surrogate};
ghost use Rattle.module_spec.specs.StringValues.Element.{unit};
ghost use Rattle.es_module_parser.specs.declared.literals.Waiting.TheVariants as Waiting;
ghost use Rattle.es_module_parser.specs.Literals.{element_of, inside_value, IsWaiting, IsAdded, IsFront, IsDigit};
ghost use Rattle.es_module_parser.specs.Literals.{NoNumber, IsNumber, IsCount, NoBraced, IsBraced};
ghost use Rattle.es_module_parser.specs.Literals.{NoUnicode, IsUnicode, NoHex, IsHex, NoEscape, IsEscape};
ghost use Rattle.es_module_parser.specs.Literals.{NoElement, IsElement};

use shared_types::{Memory, Text};
use std::alloc::Global;

/// The most digits that an escape in braces may have.
const MOST_DIGITS: usize = 6;

/// A part of a literal: what it adds, None for a line end that is passed over, and what stands behind it.
type Part<'a> = (Option<u32>, &'a str);

/// What waits for the next part of a literal.
#[derive(Clone, Copy, Debug, PartialEq, Eq)]
pub enum Waiting {
    Nothing,
    /// The first half of a surrogate pair.
    High(u32),
    /// A half of a pair stands alone, or a number is no character's.
    Alone,
}

// The first character, and what stands behind it.
fn cut_first(text: &str) -> Option<(char, &str)>
    ensures { MatchOption result (chars text.now ≡ []) (λ x. chars text.now ≡ x.0 ∷ chars x.1.now) }
{
    let mut characters = text.chars();
    match characters.next() {
        Some(first) => Some((first, characters.as_str())),
        None => None,
    }
}

// What stands before the last character.
fn cut_last(text: &str) -> Option<&str>
    ensures { MatchOption result (chars text.now ≡ []) (λ front. IsFront (chars front.now) (chars text.now)) }
{
    let mut characters = text.chars();
    match characters.next_back() {
        Some(_) => Some(characters.as_str()),
        None => None,
    }
}

// What stands between the quotes.
fn between_quotes(literal: &str) -> &str
    ensures { chars result.now ≡ between_quotes (chars literal.now) }
{
    match cut_first(literal) {
        None => literal,
        Some((_, rest)) => match cut_last(rest) {
            None => rest,
            Some(inside) => inside,
        },
    }
}

// ECMA-262, 12.9.3, HexDigit.
fn hex_value(c: char) -> Option<u32>
    ensures { MatchOption result (is_hex_digit c ≡ false) (λ value. IsDigit c value) }
{
    let code = u32::from(c);
    if code >= 48 && code <= 57 {
        Some(code - 48)
    } else if code >= 65 && code <= 70 {
        Some(code - 55)
    } else if code >= 97 && code <= 102 {
        Some(code - 87)
    } else {
        None
    }
}

// The number that the first digits write, and what stands behind them.
fn hex_number(count: usize, text: &str) -> Option<(u32, &str)>
    requires { count ≤ 6 }
    ensures { MatchOption result (NoNumber count (chars text.now))
        (λ x. IsNumber count (chars text.now) x.0 (chars x.1.now)) }
{
    let mut value = 0u32;
    let mut rest = text;
    let mut left = count;
    while left > 0 {
        let (first, more) = cut_first(rest)?;
        value = value * 16 + hex_value(first)?;
        rest = more;
        left -= 1;
    }
    Some((value, rest))
}

// How many digits stand at the front, and None where there are more than may be.
fn few_digits(text: &str) -> Option<usize>
    ensures { MatchOption result (6 < hex_digits (chars text.now)) (λ count. IsCount (chars text.now) count) }
{
    let mut count = 0;
    let mut rest = text;
    while let Some((first, more)) = cut_first(rest) {
        if hex_value(first).is_none() {
            return Some(count);
        }
        if count == MOST_DIGITS {
            return None;
        }
        count += 1;
        rest = more;
    }
    Some(count)
}

// CodePoint in braces, behind the opening one.
fn braced_escape(text: &str) -> Option<Part<'_>>
    ensures { MatchOption result (NoBraced (chars text.now)) (λ x. IsBraced (chars text.now) x.0 (chars x.1.now)) }
{
    let count = few_digits(text)?;
    if count == 0 {
        return None;
    }
    let (value, rest) = hex_number(count, text)?;
    let (first, behind) = cut_first(rest)?;
    if first == '}' {
        Some((Some(value), behind))
    } else {
        None
    }
}

// UnicodeEscapeSequence, behind its `u`.
fn unicode_escape(text: &str) -> Option<Part<'_>>
    ensures { MatchOption result (NoUnicode (chars text.now)) (λ x. IsUnicode (chars text.now) x.0 (chars x.1.now)) }
{
    let (first, rest) = cut_first(text)?;
    if first == '{' {
        return braced_escape(rest);
    }
    let (value, behind) = hex_number(4, text)?;
    Some((Some(value), behind))
}

// HexEscapeSequence, behind its `x`.
fn hex_escape(text: &str) -> Option<Part<'_>>
    ensures { MatchOption result (NoHex (chars text.now)) (λ x. IsHex (chars text.now) x.0 (chars x.1.now)) }
{
    let (value, behind) = hex_number(2, text)?;
    Some((Some(value), behind))
}

fn begins_digit(text: &str) -> bool
    ensures { result ≡ begins_digit (chars text.now) }
{
    match cut_first(text) {
        None => false,
        Some((first, _)) => is_digit(u32::from(first)),
    }
}

fn is_digit(code: u32) -> bool
    ensures { result ≡ is_ascii_digit code }
{
    code >= 48 && code <= 57
}

// Behind a line end that is CR, or CR and LF.
fn behind_return(text: &str) -> &str
    ensures { chars result.now ≡ drop (if begins_line_feed (chars text.now) then 2 else 1) (13 ∷ chars text.now) }
{
    match cut_first(text) {
        None => text,
        Some((first, rest)) => { if first == '\n' { rest } else { text } }
    }
}

fn is_line_end(code: u32) -> bool
    ensures { result ≡ (code == 10 || is_wide_line_end code) }
{
    code == 10 || (code == 0x2028 || code == 0x2029)
}

// SingleEscapeCharacter and NonEscapeCharacter.
fn escaped_character(code: u32) -> u32
    ensures { result ≡ escaped_character code }
{
    if code == 98 {
        8
    } else if code == 116 {
        9
    } else if code == 110 {
        10
    } else if code == 118 {
        11
    } else if code == 102 {
        12
    } else if code == 114 {
        13
    } else {
        code
    }
}

// What stands behind a `\`.
fn escape(text: &str) -> Option<Part<'_>>
    ensures { MatchOption result (NoEscape (chars text.now)) (λ x. IsEscape (chars text.now) x.0 (chars x.1.now)) }
{
    let (first, rest) = cut_first(text)?;
    let code = u32::from(first);
    if code == 117 {
        unicode_escape(rest)
    } else if code == 120 {
        hex_escape(rest)
    } else if code == 48 && !begins_digit(rest) {
        Some((Some(0), rest))
    } else if is_digit(code) {
        None
    } else if code == 13 {
        Some((None, behind_return(rest)))
    } else if is_line_end(code) {
        Some((None, rest))
    } else {
        Some((Some(escaped_character(code)), rest))
    }
}

// The part that begins with this character.
fn part(first: char, rest: &str) -> Option<Part<'_>>
    ensures { MatchOption result (NoElement first (chars rest.now))
        (λ x. IsElement first (chars rest.now) x.0 (chars x.1.now)) }
{
    if first != '\\' {
        return Some((Some(u32::from(first)), rest));
    }
    match escape(rest) {
        None => None,
        Some((added, behind)) => Some((added, behind)),
    }
}

fn is_high_surrogate(code: u32) -> bool
    ensures { result ≡ is_high_surrogate code }
{
    code >= 0xd800 && code < 0xdc00
}

fn is_low_surrogate(code: u32) -> bool
    ensures { result ≡ is_low_surrogate code }
{
    code >= 0xdc00 && code < 0xe000
}

// A unit where no half of a pair waits.
fn add_first(text: &mut String, code: u32) -> Result<Waiting, Memory>
    ensures value { IfOk result (λ next. IsAdded (bytes text.old) Waiting.Nothing (unit code) (bytes text.new) next) }
    ensures waits { IfOk result (λ next. IsWaiting next) }
{
    if is_high_surrogate(code) {
        return Ok(Waiting::High(code));
    }
    match char::from_u32(code) {
        None => Ok(Waiting::Alone),
        Some(character) => {
            text.push(character)?;
            Ok(Waiting::Nothing)
        }
    }
}

// A unit where the first half of a pair waits.
fn add_second(text: &mut String, high: u32, code: u32) -> Result<Waiting, Memory>
    requires { is_high_surrogate high ≡ true }
    ensures value { IfOk result
        (λ next. IsAdded (bytes text.old) (Waiting.High high) (unit code) (bytes text.new) next) }
    ensures waits { IfOk result (λ next. IsWaiting next) }
{
    if !is_low_surrogate(code) {
        return Ok(Waiting::Alone);
    }
    match char::from_u32(0x10000 + (high - 0xd800) * 1024 + (code - 0xdc00)) {
        None => Ok(Waiting::Alone),
        Some(character) => {
            text.push(character)?;
            Ok(Waiting::Nothing)
        }
    }
}

// What a part adds to the text.
fn add(text: &mut String, waiting: Waiting, added: Option<u32>) -> Result<Waiting, Memory>
    requires { IsWaiting waiting }
    ensures value { IfOk result (λ next. IsAdded (bytes text.old) waiting (element_of added) (bytes text.new) next) }
    ensures waits { IfOk result (λ next. IsWaiting next) }
{
    match added {
        None => Ok(waiting),
        Some(code) => match waiting {
            Waiting::Nothing => add_first(text, code),
            Waiting::High(high) => add_second(text, high, code),
            Waiting::Alone => Ok(Waiting::Alone),
        },
    }
}

// The value of what stands between the quotes.
fn value_of(alloc: Global, inside: &str) -> Result<Option<Text>, Memory>
    ensures { IfOk result (λ found. found ≡ inside_value (chars inside.now)) }
{
    let mut text = String::new(alloc);
    let mut waiting = Waiting::Nothing;
    let mut rest = inside;
    while let Some((first, more)) = cut_first(rest) {
        let Some((added, behind)) = part(first, more) else {
            return Ok(None);
        };
        waiting = add(&mut text, waiting, added)?;
        rest = behind;
    }
    match waiting {
        Waiting::Nothing => Ok(Some(Text::from_string(alloc, text)?)),
        Waiting::High(_) => Ok(None),
        Waiting::Alone => Ok(None),
    }
}

/// The text that a string literal with its quotes stands for. None where it holds a wrong escape, or a surrogate that
/// is no half of a pair. ECMA-262, 12.9.4.2.
#[tactic(auto, unfolding(module_spec::specs::StringValues::string_value))]
pub fn string_value(alloc: Global, literal: &str) -> Result<Option<Text>, Memory>
    ensures { IfOk result (λ found. found ≡ string_value literal.now) }
{
    let inside = between_quotes(literal);
    if inside.as_bytes().contains(&b'\\') {
        value_of(alloc, inside)
    } else {
        Ok(Some(Text::of(alloc, inside)?))
    }
}
