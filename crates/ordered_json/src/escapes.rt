ghost use Rattle.std.specs.Prelude.{◌≡◌, ◌<◌, MatchOption, IfSome};
ghost use Rattle.json_spec.specs.Taken.{refused};
ghost use Rattle.json_spec.specs.Strings.{escape_at, four_digits, hex_value, short_escape};
ghost use Rattle.ordered_json.specs.Scanned.{IsCharacter, NoEscape, NoUnicode, IsUnit, IsDigit, IsNoDigit, unicode_at};

use crate::scan::{after_word, cut_first};

/// The character of the escape whose `\` stands before the bytes, and the bytes behind it (RFC 8259, 7). None where
/// there is no such escape, or where it is half of a surrogate pair.
pub fn read_escape(bytes: &[u8]) -> Option<(char, &[u8])>
    ensures { MatchOption result (NoEscape bytes.now) (λ x. IsCharacter (escape_at bytes.now) x.0 x.1.now) }
{
    let (first, rest) = cut_first(bytes)?;
    if first == b'u' {
        return unicode_character(rest);
    }
    let character = short_character(first)?;
    Some((char::from(character), rest))
}

fn short_character(byte: u8) -> Option<u8>
    ensures value { result ≡ short_escape byte }
    ensures ascii { IfSome result (λ character. character < 128) }
{
    match byte {
        b'"' | b'\\' | b'/' => Some(byte),
        b'b' => Some(8),
        b'f' => Some(12),
        b'n' => Some(b'\n'),
        b'r' => Some(b'\r'),
        b't' => Some(b'\t'),
        _ => None,
    }
}

// The character of one `\u` escape, or of two that are a surrogate pair; the first `\u` stands before the bytes.
fn unicode_character(bytes: &[u8]) -> Option<(char, &[u8])>
    ensures { MatchOption result (NoUnicode bytes.now) (λ x. IsCharacter (unicode_at bytes.now) x.0 x.1.now) }
{
    let (unit, rest) = code_unit(bytes)?;
    if unit < 0xd800 || unit >= 0xdc00 {
        let character = char::from_u32(unit)?;
        return Some((character, rest));
    }
    let (low, rest) = code_unit(after_word(rest, b"\\u".as_slice())?)?;
    if low < 0xdc00 || low >= 0xe000 {
        return None;
    }
    let character = char::from_u32(0x10000 + (unit - 0xd800) * 1024 + (low - 0xdc00))?;
    Some((character, rest))
}

// Four hexadecimal digits.
fn code_unit(bytes: &[u8]) -> Option<(u32, &[u8])>
    ensures { MatchOption result (four_digits bytes.now ≡ refused tt) (λ x. IsUnit bytes.now x.0 x.1.now) }
{
    let (first, rest) = hexadecimal_digit(bytes)?;
    let (second, rest) = hexadecimal_digit(rest)?;
    let (third, rest) = hexadecimal_digit(rest)?;
    let (fourth, rest) = hexadecimal_digit(rest)?;
    Some((((first * 16 + second) * 16 + third) * 16 + fourth, rest))
}

fn hexadecimal_digit(bytes: &[u8]) -> Option<(u32, &[u8])>
    ensures { MatchOption result (IsNoDigit bytes.now) (λ x. IsDigit bytes.now x.0 x.1.now × (x.0 < 16)) }
{
    let (first, rest) = cut_first(bytes)?;
    let digit = digit_of(first)?;
    Some((u32::from(digit), rest))
}

fn digit_of(byte: u8) -> Option<u8>
    ensures value { result ≡ hex_value byte }
    ensures below { IfSome result (λ digit. digit < 16) }
{
    match byte {
        b'0'..=b'9' => Some(byte - b'0'),
        b'A'..=b'F' => Some(byte - b'A' + 10),
        b'a'..=b'f' => Some(byte - b'a' + 10),
        _ => None,
    }
}
