ghost use Rattle.std.specs.Prelude.{◌≡◌, ◌<◌, ◌≤◌, None, Some, length, option_map, MatchOption};
ghost use Rattle.tree_spec.specs.Limits.{limit_number};
ghost use Rattle.tree_spec.specs.declared.LimitName.TheVariants.{File};
ghost use Rattle.session_spec.specs.SessionLines as lines;
ghost use Rattle.session_input.specs.Cuts.{cut_of, cut_at, next_number};

use tree_spec::MOST_FILE_BYTES;

// As many bytes as a number of one byte counts, in whole vectors.
const COUNTED_AT_ONCE: usize = 192;

/// What stands behind a word, where the text begins with it.
pub(crate) fn behind_word<'a>(word: &[u8], text: &'a [u8]) -> Option<&'a [u8]>
    ensures { option_map (λ rest. rest.now) result ≡ lines.behind_word word.now text.now }
{
    match word.split_first() {
        None => Some(text),
        Some((first, word)) => match text.split_first() {
            None => None,
            Some((other, text)) => {
                if *first == *other {
                    behind_word(word, text)
                } else {
                    None
                }
            }
        },
    }
}

/// Where a line ends, where its end is there.
#[tactic(auto, using(crate::proofs::CutLemmas::cutting))]
pub(crate) fn line_end(text: &[u8]) -> Option<usize>
    ensures { MatchOption result (lines.cut_first 10 text.now ≡ None)
        (λ at. (at < length text.now) × (lines.cut_first 10 text.now ≡ Some (cut_at at text.now))) }
{
    for (at, byte) in text.iter().enumerate() {
        if *byte == b'\n' {
            return Some(at);
        }
    }
    None
}

/// The text before and behind its last space.
#[tactic(auto, using(crate::proofs::CutLemmas::cutting))]
pub(crate) fn cut_last_space(text: &[u8]) -> Option<(&[u8], &[u8])>
    ensures { option_map cut_of result ≡ lines.cut_last 32 text.now }
{
    let mut at = text.len();
    while at > 0 {
        at -= 1;
        if text[at] == b' ' {
            return Some((&text[..at], &text[at + 1..]));
        }
    }
    None
}

/// The number of bytes that a `put` names.
pub(crate) fn number_of(text: &[u8]) -> Option<usize>
    ensures { result ≡ lines.number_of text.now }
{
    match text.split_first() {
        None => None,
        Some((first, rest)) => {
            if rest.is_empty() {
                return number_on(0, text);
            }
            if *first == b'0' {
                None
            } else {
                number_on(0, text)
            }
        }
    }
}

fn number_on(front: usize, text: &[u8]) -> Option<usize>
    requires { front ≤ limit_number File }
    ensures { result ≡ lines.number_on front text.now }
{
    match text.split_first() {
        None => Some(front),
        Some((digit, rest)) => {
            let next = next_number(front, *digit)?;
            number_on(next, rest)
        }
    }
}

// The number with one digit more, where that is a digit and the number isn't too large.
fn next_number(front: usize, digit: u8) -> Option<usize>
    requires { front ≤ limit_number File }
    ensures { result ≡ next_number front digit }
{
    if digit < b'0' || b'9' < digit {
        return None;
    }
    let next = front * 10 + (digit - b'0') as usize;
    if MOST_FILE_BYTES < next as u64 {
        None
    } else {
        Some(next)
    }
}

/// How many lines end within bytes. They are counted by pieces, each in a number of one byte, so that many bytes are
/// compared at once.
#[tactic(auto, using(crate::proofs::CutLemmas::counting))]
pub(crate) fn line_ends(bytes: &[u8]) -> usize
    ensures ends { result ≡ lines.line_ends bytes.now }
    ensures most { result ≤ length bytes.now }
{
    let mut ends = 0;
    let mut rest = bytes;
    while !rest.is_empty() {
        let (piece, more) = rest.split_at(rest.len().min(COUNTED_AT_ONCE));
        ends += ends_within(piece) as usize;
        rest = more;
    }
    ends
}

#[tactic(auto, using(crate::proofs::CutLemmas::cutting))]
fn ends_within(piece: &[u8]) -> u8
    requires { length piece.now ≤ 192 }
    ensures ends { result ≡ lines.line_ends piece.now }
    ensures most { result ≤ length piece.now }
{
    let mut ends = 0;
    for byte in piece {
        if *byte == b'\n' {
            ends += 1;
        }
    }
    ends
}
