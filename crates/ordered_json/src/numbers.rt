ghost use Rattle.std.specs.Prelude.{◌≡◌, ◌==◌, ◌||◌, ◌≤◌, length, MatchOption, IfOk};
ghost use Rattle.json_spec.specs.Taken.{refused};
ghost use Rattle.json_spec.specs.Numbers.{after_digits, digits_at, int_at, frac_at, exp_at, maybe, one_of, number_at};
ghost use Rattle.ordered_json.specs.Scanned.{Cut, CutBy, NoNumber, IsNumberAt, letter_at};

use crate::scan::{after_byte, cut_first, piece_before};
use shared_types::{Memory, Text};
use std::alloc::Global;

/// The longest number at the front, as it is written, and the bytes behind it (RFC 8259, 6). None where there is none.
#[inline(always)]
pub fn read_number(alloc: Global, bytes: &[u8]) -> Result<Option<(Text, &[u8])>, Memory>
    ensures { IfOk result (λ found. MatchOption found (NoNumber bytes.now) (λ x. IsNumberAt bytes.now x.0 x.1.now)) }
{
    let Some(rest) = after_number(bytes) else {
        return Ok(None);
    };
    let number = unsafe { std::str::from_utf8_unchecked(piece_before(bytes, rest)) };
    Ok(Some((Text::of(alloc, number)?, rest)))
}

#[inline(always)]
fn after_number(bytes: &[u8]) -> Option<&[u8]>
    ensures { MatchOption result (number_at bytes.now ≡ refused tt) (λ rest. CutBy number_at bytes.now rest.now) }
{
    let whole = after_int(after_minus(bytes))?;
    Some(after_exponent(after_fraction(whole)))
}

#[inline(always)]
fn after_minus(bytes: &[u8]) -> &[u8]
    ensures { Cut (maybe (one_of (λ b. b == 45)) bytes.now) bytes.now result.now }
{
    match after_byte(bytes, b'-') {
        Some(rest) => rest,
        None => bytes,
    }
}

// A zero, or digits that begin with no zero.
#[inline(always)]
fn after_int(bytes: &[u8]) -> Option<&[u8]>
    ensures { MatchOption result (int_at bytes.now ≡ refused tt) (λ rest. CutBy int_at bytes.now rest.now) }
{
    match after_byte(bytes, b'0') {
        Some(rest) => Some(rest),
        None => some_digits(bytes),
    }
}

#[inline(always)]
fn after_fraction(bytes: &[u8]) -> &[u8]
    ensures { Cut (maybe frac_at bytes.now) bytes.now result.now }
{
    match fraction(bytes) {
        Some(rest) => rest,
        None => bytes,
    }
}

fn fraction(bytes: &[u8]) -> Option<&[u8]>
    ensures { MatchOption result (frac_at bytes.now ≡ refused tt) (λ rest. CutBy frac_at bytes.now rest.now) }
{
    match after_byte(bytes, b'.') {
        Some(rest) => some_digits(rest),
        None => None,
    }
}

#[inline(always)]
fn after_exponent(bytes: &[u8]) -> &[u8]
    ensures { Cut (maybe exp_at bytes.now) bytes.now result.now }
{
    match exponent(bytes) {
        Some(rest) => rest,
        None => bytes,
    }
}

fn exponent(bytes: &[u8]) -> Option<&[u8]>
    ensures { MatchOption result (exp_at bytes.now ≡ refused tt) (λ rest. CutBy exp_at bytes.now rest.now) }
{
    match after_letter(bytes) {
        Some(rest) => some_digits(after_sign(rest)),
        None => None,
    }
}

// An `e` in either case.
fn after_letter(bytes: &[u8]) -> Option<&[u8]>
    ensures { MatchOption result (letter_at bytes.now ≡ refused tt) (λ rest. CutBy letter_at bytes.now rest.now) }
{
    match after_byte(bytes, b'e') {
        Some(rest) => Some(rest),
        None => after_byte(bytes, b'E'),
    }
}

fn after_sign(bytes: &[u8]) -> &[u8]
    ensures { Cut (maybe (one_of (λ b. b == 43 || b == 45)) bytes.now) bytes.now result.now }
{
    match after_byte(bytes, b'+') {
        Some(rest) => rest,
        None => after_minus(bytes),
    }
}

// One digit or more.
#[inline(always)]
fn some_digits(bytes: &[u8]) -> Option<&[u8]>
    ensures { MatchOption result (digits_at bytes.now ≡ refused tt) (λ rest. CutBy digits_at bytes.now rest.now) }
{
    let rest = skip_digits(bytes);
    if rest.len() < bytes.len() {
        Some(rest)
    } else {
        None
    }
}

#[inline(always)]
fn skip_digits(bytes: &[u8]) -> &[u8]
    ensures { result.now ≡ after_digits bytes.now }
{
    let mut rest = bytes;
    while let Some((first, more)) = cut_first(rest) {
        if !first.is_ascii_digit() {
            return rest;
        }
        rest = more;
    }
    rest
}
