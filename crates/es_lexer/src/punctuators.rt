ghost use Rattle.std.specs.Prelude.{◌≡◌, ◌∷◌, None, Some, MatchOption};
ghost use Rattle.module_spec.specs.Spellings.{punctuator};

use crate::names::begins_digit;
use module_spec::Mark;

fn after_greater_greater_greater(rest: &[u8]) -> (Mark, usize)
    ensures { punctuator (62 ∷ 62 ∷ 62 ∷ rest.now) ≡ Some result }
{
    match rest.split_first() {
        Some((b'=', _)) => (Mark::Operator, 4),
        _ => (Mark::Operator, 3),
    }
}

fn after_not_equals(rest: &[u8]) -> (Mark, usize)
    ensures { punctuator (33 ∷ 61 ∷ rest.now) ≡ Some result }
{
    match rest.split_first() {
        Some((b'=', _)) => (Mark::Operator, 3),
        _ => (Mark::Operator, 2),
    }
}

fn after_and_and(rest: &[u8]) -> (Mark, usize)
    ensures { punctuator (38 ∷ 38 ∷ rest.now) ≡ Some result }
{
    match rest.split_first() {
        Some((b'=', _)) => (Mark::Operator, 3),
        _ => (Mark::Operator, 2),
    }
}

fn after_star_star(rest: &[u8]) -> (Mark, usize)
    ensures { punctuator (42 ∷ 42 ∷ rest.now) ≡ Some result }
{
    match rest.split_first() {
        Some((b'=', _)) => (Mark::Operator, 3),
        _ => (Mark::Operator, 2),
    }
}

fn after_point_point(rest: &[u8]) -> (Mark, usize)
    ensures { punctuator (46 ∷ 46 ∷ rest.now) ≡ Some result }
{
    match rest.split_first() {
        Some((b'.', _)) => (Mark::Operator, 3),
        _ => (Mark::Dot, 1),
    }
}

fn after_less_less(rest: &[u8]) -> (Mark, usize)
    ensures { punctuator (60 ∷ 60 ∷ rest.now) ≡ Some result }
{
    match rest.split_first() {
        Some((b'=', _)) => (Mark::Operator, 3),
        _ => (Mark::Operator, 2),
    }
}

fn after_equals_equals(rest: &[u8]) -> (Mark, usize)
    ensures { punctuator (61 ∷ 61 ∷ rest.now) ≡ Some result }
{
    match rest.split_first() {
        Some((b'=', _)) => (Mark::Operator, 3),
        _ => (Mark::Operator, 2),
    }
}

fn after_greater_greater(rest: &[u8]) -> (Mark, usize)
    ensures { punctuator (62 ∷ 62 ∷ rest.now) ≡ Some result }
{
    match rest.split_first() {
        Some((b'=', _)) => (Mark::Operator, 3),
        Some((b'>', more)) => after_greater_greater_greater(more),
        _ => (Mark::Operator, 2),
    }
}

fn after_question_question(rest: &[u8]) -> (Mark, usize)
    ensures { punctuator (63 ∷ 63 ∷ rest.now) ≡ Some result }
{
    match rest.split_first() {
        Some((b'=', _)) => (Mark::Operator, 3),
        _ => (Mark::Operator, 2),
    }
}

fn after_or_or(rest: &[u8]) -> (Mark, usize)
    ensures { punctuator (124 ∷ 124 ∷ rest.now) ≡ Some result }
{
    match rest.split_first() {
        Some((b'=', _)) => (Mark::Operator, 3),
        _ => (Mark::Operator, 2),
    }
}

fn after_not(rest: &[u8]) -> (Mark, usize)
    ensures { punctuator (33 ∷ rest.now) ≡ Some result }
{
    match rest.split_first() {
        Some((b'=', more)) => after_not_equals(more),
        _ => (Mark::Operator, 1),
    }
}

fn after_percent(rest: &[u8]) -> (Mark, usize)
    ensures { punctuator (37 ∷ rest.now) ≡ Some result }
{
    match rest.split_first() {
        Some((b'=', _)) => (Mark::Operator, 2),
        _ => (Mark::Operator, 1),
    }
}

fn after_and(rest: &[u8]) -> (Mark, usize)
    ensures { punctuator (38 ∷ rest.now) ≡ Some result }
{
    match rest.split_first() {
        Some((b'&', more)) => after_and_and(more),
        Some((b'=', _)) => (Mark::Operator, 2),
        _ => (Mark::Operator, 1),
    }
}

fn after_star(rest: &[u8]) -> (Mark, usize)
    ensures { punctuator (42 ∷ rest.now) ≡ Some result }
{
    match rest.split_first() {
        Some((b'*', more)) => after_star_star(more),
        Some((b'=', _)) => (Mark::Operator, 2),
        _ => (Mark::Operator, 1),
    }
}

fn after_plus(rest: &[u8]) -> (Mark, usize)
    ensures { punctuator (43 ∷ rest.now) ≡ Some result }
{
    match rest.split_first() {
        Some((b'+', _)) => (Mark::Step, 2),
        Some((b'=', _)) => (Mark::Operator, 2),
        _ => (Mark::Operator, 1),
    }
}

fn after_minus(rest: &[u8]) -> (Mark, usize)
    ensures { punctuator (45 ∷ rest.now) ≡ Some result }
{
    match rest.split_first() {
        Some((b'-', _)) => (Mark::Step, 2),
        Some((b'=', _)) => (Mark::Operator, 2),
        _ => (Mark::Operator, 1),
    }
}

fn after_point(rest: &[u8]) -> (Mark, usize)
    ensures { punctuator (46 ∷ rest.now) ≡ Some result }
{
    match rest.split_first() {
        Some((b'.', more)) => after_point_point(more),
        _ => (Mark::Dot, 1),
    }
}

fn after_slash(rest: &[u8]) -> (Mark, usize)
    ensures { punctuator (47 ∷ rest.now) ≡ Some result }
{
    match rest.split_first() {
        Some((b'=', _)) => (Mark::Operator, 2),
        _ => (Mark::Operator, 1),
    }
}

fn after_less(rest: &[u8]) -> (Mark, usize)
    ensures { punctuator (60 ∷ rest.now) ≡ Some result }
{
    match rest.split_first() {
        Some((b'<', more)) => after_less_less(more),
        Some((b'=', _)) => (Mark::Operator, 2),
        _ => (Mark::Operator, 1),
    }
}

fn after_equals(rest: &[u8]) -> (Mark, usize)
    ensures { punctuator (61 ∷ rest.now) ≡ Some result }
{
    match rest.split_first() {
        Some((b'=', more)) => after_equals_equals(more),
        Some((b'>', _)) => (Mark::Stop, 2),
        _ => (Mark::Operator, 1),
    }
}

fn after_greater(rest: &[u8]) -> (Mark, usize)
    ensures { punctuator (62 ∷ rest.now) ≡ Some result }
{
    match rest.split_first() {
        Some((b'=', _)) => (Mark::Operator, 2),
        Some((b'>', more)) => after_greater_greater(more),
        _ => (Mark::Operator, 1),
    }
}

// `?.` is no punctuator before a digit.
fn after_question_point(rest: &[u8]) -> (Mark, usize)
    ensures { punctuator (63 ∷ 46 ∷ rest.now) ≡ Some result }
{
    if begins_digit(rest) {
        (Mark::Operator, 1)
    } else {
        (Mark::Dot, 2)
    }
}

fn after_question(rest: &[u8]) -> (Mark, usize)
    ensures { punctuator (63 ∷ rest.now) ≡ Some result }
{
    match rest.split_first() {
        Some((b'.', more)) => after_question_point(more),
        Some((b'?', more)) => after_question_question(more),
        _ => (Mark::Operator, 1),
    }
}

fn after_caret(rest: &[u8]) -> (Mark, usize)
    ensures { punctuator (94 ∷ rest.now) ≡ Some result }
{
    match rest.split_first() {
        Some((b'=', _)) => (Mark::Operator, 2),
        _ => (Mark::Operator, 1),
    }
}

fn after_or(rest: &[u8]) -> (Mark, usize)
    ensures { punctuator (124 ∷ rest.now) ≡ Some result }
{
    match rest.split_first() {
        Some((b'=', _)) => (Mark::Operator, 2),
        Some((b'|', more)) => after_or_or(more),
        _ => (Mark::Operator, 1),
    }
}

/// The longest punctuator at the front: its mark and its length.
pub fn punctuator(bytes: &[u8]) -> Option<(Mark, usize)>
    ensures { result ≡ punctuator bytes.now }
{
    match bytes.split_first() {
        Some((b'!', rest)) => Some(after_not(rest)),
        Some((b'%', rest)) => Some(after_percent(rest)),
        Some((b'&', rest)) => Some(after_and(rest)),
        Some((b'(', _)) => Some((Mark::OpenRound, 1)),
        Some((b')', _)) => Some((Mark::CloseRound, 1)),
        Some((b'*', rest)) => Some(after_star(rest)),
        Some((b'+', rest)) => Some(after_plus(rest)),
        Some((b',', _)) => Some((Mark::Operator, 1)),
        Some((b'-', rest)) => Some(after_minus(rest)),
        Some((b'.', rest)) => Some(after_point(rest)),
        Some((b'/', rest)) => Some(after_slash(rest)),
        Some((b':', _)) => Some((Mark::Stop, 1)),
        Some((b';', _)) => Some((Mark::Stop, 1)),
        Some((b'<', rest)) => Some(after_less(rest)),
        Some((b'=', rest)) => Some(after_equals(rest)),
        Some((b'>', rest)) => Some(after_greater(rest)),
        Some((b'?', rest)) => Some(after_question(rest)),
        Some((b'[', _)) => Some((Mark::OpenSquare, 1)),
        Some((b']', _)) => Some((Mark::CloseSquare, 1)),
        Some((b'^', rest)) => Some(after_caret(rest)),
        Some((b'{', _)) => Some((Mark::OpenCurly, 1)),
        Some((b'|', rest)) => Some(after_or(rest)),
        Some((b'}', _)) => Some((Mark::CloseCurly, 1)),
        Some((b'~', _)) => Some((Mark::Operator, 1)),
        _ => None,
    }
}
