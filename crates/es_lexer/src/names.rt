ghost use Rattle.std.specs.Prelude.{◌≡◌, ◌==◌, ◌+◌, ◌<◌, slice_index, ◌≤◌, length, MatchOption};
ghost use Rattle.std.specs.Prelude.{IfSome};
ghost use Rattle.std.specs.Char.{is_ascii_digit};
ghost use Rattle.module_spec.specs.Characters.{is_hex_digit, hex_digits, braced_size};
ghost use Rattle.module_spec.specs.Characters.{unicode_size, escape_size, is_name_byte};
ghost use Rattle.module_spec.specs.Characters.{name_size, begins_digit, begins_name, name_rest};
ghost use Rattle.es_lexer.specs.Steps.{NameGoesOn};

use crate::characters::{begins_wide_space, behind, character_size};

pub fn is_digit(b: u8) -> bool
    ensures { result ≡ is_ascii_digit b }
{
    b'0' <= b && b <= b'9'
}

fn is_hex_digit(b: u8) -> bool
    ensures { result ≡ is_hex_digit b }
{
    is_digit(b) || b'a' <= b && b <= b'f' || b'A' <= b && b <= b'F'
}

// How many digits of base 16 stand at the front.
fn hex_digits(bytes: &[u8]) -> usize
    ensures value { result ≡ hex_digits bytes.now }
    ensures within { result ≤ length bytes.now }
{
    let mut rest = bytes;
    let mut count: usize = 0;
    while let Some((b, more)) = rest.split_first() {
        if !is_hex_digit(*b) {
            return count;
        }
        count += 1;
        rest = more;
    }
    count
}

fn stands_at(bytes: &[u8], index: usize, wanted: u8) -> bool
    requires { 0 < wanted }
    ensures { result ≡ (slice_index bytes.now index == wanted) }
{
    match bytes.get(index) {
        None => false,
        Some(b) => *b == wanted,
    }
}

// The size of an escape with braces, by what stands behind the opening one.
fn braced_size(bytes: &[u8]) -> usize
    ensures { result ≡ braced_size bytes.now }
{
    let digits = hex_digits(bytes);
    if 1 <= digits && digits <= 6 && stands_at(bytes, digits, b'}') {
        digits + 4
    } else {
        0
    }
}

fn unicode_size(bytes: &[u8]) -> usize
    ensures { result ≡ unicode_size bytes.now }
{
    match bytes.split_first() {
        None => 0,
        Some((first, rest)) => {
            if *first == b'{' {
                braced_size(rest)
            } else if hex_digits(bytes) >= 4 {
                6
            } else {
                0
            }
        }
    }
}

fn escape_size(bytes: &[u8]) -> usize
    ensures { result ≡ escape_size bytes.now }
{
    match bytes.split_first() {
        None => 0,
        Some((first, rest)) => {
            if *first == b'u' {
                unicode_size(rest)
            } else {
                0
            }
        }
    }
}

// Whether each byte is a letter, a digit, `_` or `$`.
const NAME_BYTES: [bool; 256] = [
    false, false, false, false, false, false, false, false, false, false, false, false, false,
    false, false, false, false, false, false, false, false, false, false, false, false, false,
    false, false, false, false, false, false, false, false, false, false, true, false, false,
    false, false, false, false, false, false, false, false, false, true, true, true, true, true,
    true, true, true, true, true, false, false, false, false, false, false, false, true, true,
    true, true, true, true, true, true, true, true, true, true, true, true, true, true, true, true,
    true, true, true, true, true, true, true, true, false, false, false, false, true, false, true,
    true, true, true, true, true, true, true, true, true, true, true, true, true, true, true, true,
    true, true, true, true, true, true, true, true, true, false, false, false, false, false, false,
    false, false, false, false, false, false, false, false, false, false, false, false, false,
    false, false, false, false, false, false, false, false, false, false, false, false, false,
    false, false, false, false, false, false, false, false, false, false, false, false, false,
    false, false, false, false, false, false, false, false, false, false, false, false, false,
    false, false, false, false, false, false, false, false, false, false, false, false, false,
    false, false, false, false, false, false, false, false, false, false, false, false, false,
    false, false, false, false, false, false, false, false, false, false, false, false, false,
    false, false, false, false, false, false, false, false, false, false, false, false, false,
    false, false, false, false, false, false, false, false, false, false, false, false, false,
    false, false, false, false, false, false, false, false, false, false,
];

#[inline]
fn is_name_byte(b: u8) -> bool
    ensures { result ≡ is_name_byte b }
{
    NAME_BYTES[b as usize]
}

// How many bytes of a character of names, or of an escape, stand at the front.
#[tactic(auto, unfolding(module_spec::specs::Characters::name_size))]
#[inline(never)]
fn any_name_size(bytes: &[u8]) -> usize
    ensures { result ≡ name_size bytes.now }
{
    match bytes.split_first() {
        None => 0,
        Some((first, rest)) => {
            if is_name_byte(*first) {
                1
            } else if *first == b'\\' {
                escape_size(rest)
            } else if *first < 128 || begins_wide_space(bytes) {
                0
            } else {
                character_size(*first)
            }
        }
    }
}

/// How many bytes of a character of names, or of an escape, stand at the front. Nearly always the first byte alone says
/// it, so what this needs stands here, and the rest is called.
#[tactic(auto, unfolding(module_spec::specs::Characters::name_size))]
#[inline]
pub fn name_size(bytes: &[u8]) -> usize
    ensures { result ≡ name_size bytes.now }
{
    match bytes.split_first() {
        None => 0,
        Some((first, _)) => {
            if is_name_byte(*first) {
                1
            } else if *first < 128 && *first != b'\\' {
                0
            } else {
                any_name_size(bytes)
            }
        }
    }
}

pub fn begins_digit(bytes: &[u8]) -> bool
    ensures { result ≡ begins_digit bytes.now }
{
    match bytes.split_first() {
        None => false,
        Some((first, _)) => is_digit(*first),
    }
}

/// Whether a name begins at the front.
pub fn begins_name(bytes: &[u8]) -> bool
    ensures { result ≡ begins_name bytes.now }
{
    !begins_digit(bytes) && name_size(bytes) != 0
}

// The bytes behind one character of names.
fn name_more(bytes: &[u8]) -> Option<&[u8]>
    ensures { MatchOption result (name_rest bytes.now ≡ bytes.now)
        (λ more. NameGoesOn bytes.now more.now) }
{
    let size = name_size(bytes);
    if size == 0 {
        None
    } else {
        Some(behind(bytes, size))
    }
}

// The bytes behind the characters of names at the front, whatever they are.
#[inline(never)]
fn any_name_rest(bytes: &[u8]) -> &[u8]
    ensures { result.now ≡ name_rest bytes.now }
{
    let mut rest = bytes;
    while let Some(more) = name_more(rest) {
        rest = more;
    }
    rest
}

// The bytes behind one letter, digit, `_` or `$`.
#[inline]
fn plain_more(bytes: &[u8]) -> Option<&[u8]>
    ensures { IfSome result (λ more. NameGoesOn bytes.now more.now) }
{
    match bytes.split_first() {
        None => None,
        Some((first, rest)) => {
            if is_name_byte(*first) {
                Some(rest)
            } else {
                None
            }
        }
    }
}

/// The bytes behind the characters of names at the front. The loop goes over letters and digits alone, and a call over
/// what may stand behind them.
pub fn name_rest(bytes: &[u8]) -> &[u8]
    ensures { result.now ≡ name_rest bytes.now }
{
    let mut rest = bytes;
    while let Some(more) = plain_more(rest) {
        rest = more;
    }
    if name_size(rest) == 0 {
        rest
    } else {
        any_name_rest(rest)
    }
}
