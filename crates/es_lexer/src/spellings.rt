ghost use Rattle.std.specs.Prelude.{◌≡◌, ◌≢◌, ◌<◌, ◌≤◌, ◌==◌, ◌||◌, false, [], ◌∷◌, None, Some, length, drop};
ghost use Rattle.std.specs.Prelude.{MatchOption, IfSome};
ghost use Rattle.module_spec.specs.Spellings.{begins_with, line_rest, comment_rest, slash_rest, blank_rest};
ghost use Rattle.module_spec.specs.Spellings.{hashbang_rest, has_base_letter, begins_sign, number_size, number_rest};
ghost use Rattle.module_spec.specs.Spellings.{begins_number, text_size, closed_rest, text_rest, begins_substitution};
ghost use Rattle.module_spec.specs.Spellings.{template_size, part_rest, template_rest, regex_body_rest};
ghost use Rattle.module_spec.specs.Characters.{passed, space_size};
ghost use Rattle.module_spec.specs.Tokens.{Skips};

use crate::characters::{begins_line_end, behind, is_ascii_space, space_size};
use crate::names::{begins_digit, is_digit, name_size};

fn stands_first(wanted: u8, bytes: &[u8]) -> bool
    ensures { result ≡ begins_with (wanted ∷ []) bytes.now }
{
    match bytes.split_first() {
        None => false,
        Some((first, _)) => wanted == *first,
    }
}

/// The bytes from the next line end on.
fn line_rest(bytes: &[u8]) -> &[u8]
    ensures { result.now ≡ line_rest bytes.now }
{
    let mut rest = bytes;
    while let Some((_, more)) = rest.split_first() {
        if begins_line_end(rest) {
            return rest;
        }
        rest = more;
    }
    rest
}

// The bytes behind the next `*/`.
fn comment_rest(bytes: &[u8]) -> Option<&[u8]>
    ensures { MatchOption result (comment_rest bytes.now ≡ None) (λ rest. comment_rest bytes.now ≡ Some rest.now) }
{
    let mut rest = bytes;
    while let Some((b, more)) = rest.split_first() {
        if *b == b'*' && stands_first(b'/', more) {
            return Some(behind(more, 1));
        }
        rest = more;
    }
    None
}

// The bytes behind a comment, by what stands behind its first `/`.
fn slash_rest(bytes: &[u8]) -> Option<&[u8]>
    ensures { MatchOption result (slash_rest bytes.now ≡ None) (λ rest. slash_rest bytes.now ≡ Some rest.now) }
{
    match bytes.split_first() {
        None => None,
        Some((first, rest)) => {
            if *first == b'/' {
                Some(line_rest(rest))
            } else if *first == b'*' {
                comment_rest(rest)
            } else {
                None
            }
        }
    }
}

// The bytes behind one character of white space or one line end past ASCII.
#[inline(never)]
fn wide_rest(bytes: &[u8]) -> Option<&[u8]>
    ensures { MatchOption result (space_size bytes.now ≡ 0)
        (λ rest. (space_size bytes.now ≢ 0) × (rest.now ≡ drop (space_size bytes.now) bytes.now)) }
{
    let size = space_size(bytes);
    if size == 0 {
        None
    } else {
        Some(behind(bytes, size))
    }
}

// The bytes behind one character of white space, one line end or one comment.
#[tactic(auto, unfolding(module_spec::specs::Spellings::blank_rest))]
fn blank_rest(bytes: &[u8]) -> Option<&[u8]>
    ensures { MatchOption result (blank_rest bytes.now ≡ None) (λ rest. blank_rest bytes.now ≡ Some rest.now) }
{
    match bytes.split_first() {
        None => None,
        Some((first, rest)) => {
            if is_ascii_space(*first) {
                Some(rest)
            } else if *first == b'/' {
                slash_rest(rest)
            } else if *first < 128 {
                None
            } else {
                wide_rest(bytes)
            }
        }
    }
}

/// The bytes behind all white space, line ends and comments at the front.
pub fn skip(bytes: &[u8]) -> &[u8]
    ensures { Skips bytes.now result.now }
{
    let mut rest = bytes;
    while let Some(more) = blank_rest(rest) {
        rest = more;
    }
    rest
}

/// The bytes behind a first line that begins with `#!`.
pub fn hashbang_rest(text: &[u8]) -> &[u8]
    ensures { result.now ≡ hashbang_rest text.now }
{
    let Some((first, behind_first)) = text.split_first() else {
        return text;
    };
    let Some((second, rest)) = behind_first.split_first() else {
        return text;
    };
    if *first == b'#' && *second == b'!' {
        line_rest(rest)
    } else {
        text
    }
}

fn is_base_letter(b: u8) -> bool
    ensures { result ≡ (b == 120 || b == 88 || b == 98 || b == 66 || b == 111 || b == 79) }
{
    b == b'x' || b == b'X' || b == b'b' || b == b'B' || b == b'o' || b == b'O'
}

// Whether `0` and the letter of another base stand at the front.
fn has_base_letter(bytes: &[u8]) -> bool
    ensures { result ≡ has_base_letter bytes.now }
{
    match bytes.split_first() {
        None => false,
        Some((first, rest)) => match rest.split_first() {
            None => false,
            Some((second, _)) => *first == b'0' && is_base_letter(*second),
        },
    }
}

fn begins_sign(bytes: &[u8]) -> bool
    ensures { result ≡ begins_sign bytes.now }
{
    match bytes.split_first() {
        None => false,
        Some((first, _)) => *first == b'+' || *first == b'-',
    }
}

// How many bytes of a number's next part stand at the front.
fn number_size(exponent: bool, bytes: &[u8]) -> usize
    ensures { result ≡ number_size exponent bytes.now }
{
    match bytes.split_first() {
        None => 0,
        Some((first, rest)) => {
            if *first == b'.' {
                1
            } else if exponent && (*first == b'e' || *first == b'E') && begins_sign(rest) {
                2
            } else {
                name_size(bytes)
            }
        }
    }
}

// The bytes behind a number's next part.
fn number_more(exponent: bool, bytes: &[u8]) -> Option<&[u8]>
    ensures { MatchOption result (passed (number_size exponent) 0 bytes.now ≡ bytes.now)
        (λ more. (passed (number_size exponent) 0 bytes.now ≡ passed (number_size exponent) 0 more.now)
        × (length more.now < length bytes.now)) }
{
    let size = number_size(exponent, bytes);
    if size == 0 {
        None
    } else {
        Some(behind(bytes, size))
    }
}

/// The bytes behind a number.
pub fn number_rest(bytes: &[u8]) -> &[u8]
    ensures { result.now ≡ number_rest bytes.now }
{
    let exponent = !has_base_letter(bytes);
    let mut rest = bytes;
    while let Some(more) = number_more(exponent, rest) {
        rest = more;
    }
    rest
}

/// Whether a number begins at the front.
pub fn begins_number(bytes: &[u8]) -> bool
    ensures { result ≡ begins_number bytes.now }
{
    match bytes.split_first() {
        None => false,
        Some((first, rest)) => is_digit(*first) || *first == b'.' && begins_digit(rest),
    }
}

fn begins_return_and_line_feed(bytes: &[u8]) -> bool
    ensures { result ≡ begins_with (13 ∷ 10 ∷ []) bytes.now }
{
    match bytes.split_first() {
        Some((b'\r', rest)) => stands_first(b'\n', rest),
        _ => false,
    }
}

// How many bytes a string takes next.
fn text_size(quote: u8, bytes: &[u8]) -> usize
    ensures { result ≡ text_size quote bytes.now }
{
    match bytes.split_first() {
        None => 0,
        Some((first, rest)) => {
            if *first == quote || *first == b'\n' || *first == b'\r' {
                0
            } else if *first == b'\\' {
                if begins_return_and_line_feed(rest) {
                    3
                } else {
                    2
                }
            } else {
                1
            }
        }
    }
}

// The bytes behind those that a string takes next.
fn text_more(quote: u8, bytes: &[u8]) -> Option<&[u8]>
    ensures { MatchOption result (passed (text_size quote) 0 bytes.now ≡ bytes.now)
        (λ more. (passed (text_size quote) 0 bytes.now ≡ passed (text_size quote) 0 more.now)
        × (length more.now < length bytes.now)) }
{
    let size = text_size(quote, bytes);
    if size == 0 {
        None
    } else {
        Some(behind(bytes, size))
    }
}

fn closed_rest(quote: u8, bytes: &[u8]) -> Option<&[u8]>
    ensures { MatchOption result (closed_rest quote bytes.now ≡ None)
        (λ rest. closed_rest quote bytes.now ≡ Some rest.now) }
{
    match bytes.split_first() {
        None => None,
        Some((first, rest)) => { if *first == quote { Some(rest) } else { None } }
    }
}

// The bytes behind one that stands for itself in a string.
#[inline]
fn plain_more(quote: u8, bytes: &[u8]) -> Option<&[u8]>
    ensures { IfSome result (λ more. (text_rest quote bytes.now ≡ text_rest quote more.now)
        × (length more.now < length bytes.now)) }
{
    match bytes.split_first() {
        None => None,
        Some((first, rest)) => {
            if *first == quote || *first == b'\\' || *first == b'\n' || *first == b'\r' {
                None
            } else {
                Some(rest)
            }
        }
    }
}

// Behind the bytes at the front that a string takes one by one.
fn plain_rest(quote: u8, bytes: &[u8]) -> &[u8]
    ensures rest { text_rest quote bytes.now ≡ text_rest quote result.now }
    ensures shorter { length result.now ≤ length bytes.now }
{
    let mut rest = bytes;
    while let Some(more) = plain_more(quote, rest) {
        rest = more;
    }
    rest
}

/// The bytes behind the closing quote of a string literal, by those behind the opening one. Few strings have escapes,
/// so the bytes between them are passed over by a loop of their own. In a caller's body it would have fewer registers.
#[inline(never)]
pub fn text_rest(quote: u8, bytes: &[u8]) -> Option<&[u8]>
    ensures { MatchOption result (text_rest quote bytes.now ≡ None)
        (λ rest. text_rest quote bytes.now ≡ Some rest.now) }
{
    let mut rest = plain_rest(quote, bytes);
    while let Some(more) = text_more(quote, rest) {
        rest = plain_rest(quote, more);
    }
    closed_rest(quote, rest)
}

fn begins_substitution(bytes: &[u8]) -> bool
    ensures { result ≡ begins_substitution bytes.now }
{
    match bytes.split_first() {
        None => false,
        Some((first, rest)) => *first == b'$' && stands_first(b'{', rest),
    }
}

// How many bytes a part of a template takes next.
fn template_size(bytes: &[u8]) -> usize
    ensures { result ≡ template_size bytes.now }
{
    match bytes.split_first() {
        None => 0,
        Some((first, _)) => {
            if *first == b'`' || begins_substitution(bytes) {
                0
            } else if *first == b'\\' {
                2
            } else {
                1
            }
        }
    }
}

// The bytes behind those that a part of a template takes next.
fn template_more(bytes: &[u8]) -> Option<&[u8]>
    ensures { MatchOption result (passed template_size 0 bytes.now ≡ bytes.now)
        (λ more. (passed template_size 0 bytes.now ≡ passed template_size 0 more.now)
        × (length more.now < length bytes.now)) }
{
    let size = template_size(bytes);
    if size == 0 {
        None
    } else {
        Some(behind(bytes, size))
    }
}

fn part_rest(bytes: &[u8]) -> Option<(bool, &[u8])>
    ensures { MatchOption result (part_rest bytes.now ≡ None)
        (λ part. part_rest bytes.now ≡ Some (part.0, part.1.now)) }
{
    match bytes.split_first() {
        None => None,
        Some((first, rest)) => {
            if *first == b'`' {
                Some((true, rest))
            } else if begins_substitution(bytes) {
                Some((false, behind(rest, 1)))
            } else {
                None
            }
        }
    }
}

/// The bytes behind a template's part, and whether a backquote ends it.
pub fn template_rest(bytes: &[u8]) -> Option<(bool, &[u8])>
    ensures { MatchOption result (template_rest bytes.now ≡ None)
        (λ part. template_rest bytes.now ≡ Some (part.0, part.1.now)) }
{
    let mut rest = bytes;
    while let Some(more) = template_more(rest) {
        rest = more;
    }
    part_rest(rest)
}

/// The bytes behind the closing `/` of a regular expression.
pub fn regex_body_rest(bytes: &[u8]) -> Option<&[u8]>
    ensures { MatchOption result (regex_body_rest false false bytes.now ≡ None)
        (λ rest. regex_body_rest false false bytes.now ≡ Some rest.now) }
{
    let mut rest = bytes;
    let mut escaped = false;
    let mut class = false;
    while let Some((b, more)) = rest.split_first() {
        if begins_line_end(rest) {
            return None;
        }
        if escaped {
            escaped = false;
        } else if *b == b'/' && !class {
            return Some(more);
        } else {
            class = *b == b'[' || class && *b != b']';
            escaped = *b == b'\\';
        }
        rest = more;
    }
    None
}
