ghost use Rattle.std.specs.Prelude.{◌≡◌, ◌<◌, ◌==◌, ◌&&◌, false, [], ◌∷◌, None, Some, length, codes, option_map};
ghost use Rattle.std.specs.Prelude.{MatchOption};
ghost use Rattle.page_spec.specs.declared.kinds.State.TheVariants.{TagOpen};
ghost use Rattle.page_spec.specs.Tokenizer.{behind_markup};
ghost use Rattle.page_spec.specs.Pieces.{opening, opening_end, tag_name, is_name, behind_raw, ends_text, behind_text};
ghost use Rattle.page_spec.specs.Pieces.{broken, ended, started, markup, first_piece};
ghost use Rattle.html_scan.specs.Fronts.{front_of};

use crate::markup::behind_markup;
use crate::names::{closes, is_letter, is_named, raw_element};
use page_spec::{PieceKind, RawElement};

/// The piece at the front of some bytes: its kind, the element whose raw text comes behind it, and what is left.
#[derive(Clone, Copy)]
pub struct Front<'a> {
    pub kind: PieceKind,
    pub within: Option<RawElement>,
    pub rest: &'a [u8],
}

// What `</` before the bytes opens.
fn opening_end(bytes: &[u8]) -> Option<PieceKind>
    ensures { result ≡ opening_end bytes.now }
{
    match bytes.split_first() {
        None => None,
        Some((b, _)) => Some(if is_letter(*b) {
            PieceKind::End
        } else {
            PieceKind::Comment
        }),
    }
}

// What a `<` before the bytes opens.
fn opening(bytes: &[u8]) -> Option<PieceKind>
    ensures { result ≡ opening bytes.now }
{
    match bytes.split_first() {
        None => None,
        Some((b, rest)) => {
            if is_letter(*b) {
                Some(PieceKind::Start)
            } else if *b == b'!' || *b == b'?' {
                Some(PieceKind::Comment)
            } else if *b == b'/' {
                opening_end(rest)
            } else {
                None
            }
        }
    }
}

// What is left behind text.
fn behind_text(bytes: &[u8]) -> &[u8]
    ensures { result.now ≡ behind_text bytes.now }
{
    let mut rest = bytes;
    while let Some((b, more)) = rest.split_first() {
        if *b == b'<' && opening(more).is_some() {
            return rest;
        }
        rest = more;
    }
    rest
}

// What is left behind the element's raw text; None where no end tag of it comes.
fn behind_raw(element: RawElement, bytes: &[u8]) -> Option<&[u8]>
    ensures { let rest = behind_raw element bytes.now in MatchOption result (rest ≡ None) (λ r. rest ≡ Some r.now) }
{
    let mut rest = bytes;
    while let Some((b, more)) = rest.split_first() {
        if *b == b'<' && closes(element, rest) {
            return Some(rest);
        }
        rest = more;
    }
    None
}

fn text<'a>(bytes: &'a [u8]) -> Front<'a>
    ensures { front_of result ≡ markup None bytes.now }
{
    Front {
        kind: PieceKind::Text,
        within: None,
        rest: behind_text(bytes),
    }
}

fn broken<'a>() -> Front<'a>
    ensures { front_of result ≡ broken }
{
    Front {
        kind: PieceKind::Broken,
        within: None,
        rest: b"".as_slice(),
    }
}

fn ended<'a>(kind: PieceKind, rest: Option<&'a [u8]>) -> Front<'a>
    ensures { front_of result ≡ ended kind (option_map (λ rest. rest.now) rest.entry) }
{
    match rest {
        None => broken(),
        Some(rest) => Front {
            kind,
            within: None,
            rest,
        },
    }
}

// The start tag behind whose `<` the bytes stand.
fn started<'a>(bytes: &'a [u8]) -> Front<'a>
    ensures { front_of result ≡ started (tag_name bytes.now) (behind_markup TagOpen bytes.now) }
{
    match behind_markup(bytes) {
        None => broken(),
        Some(rest) => {
            if is_named(b"plaintext".as_slice(), bytes) {
                broken()
            } else {
                Front {
                    kind: PieceKind::Start,
                    within: raw_element(bytes),
                    rest,
                }
            }
        }
    }
}

// The piece behind whose `<` the bytes stand.
fn markup<'a>(bytes: &'a [u8]) -> Front<'a>
    ensures { front_of result ≡ markup (opening bytes.now) bytes.now }
{
    match opening(bytes) {
        None => text(bytes),
        Some(PieceKind::Start) => started(bytes),
        Some(kind) => ended(kind, behind_markup(bytes)),
    }
}

/// The piece at the front; None where nothing is left. `within` is the element whose raw text comes here.
#[tactic(auto, unfolding(page_spec::specs::Pieces::first_piece))]
pub fn first_piece<'a>(within: Option<RawElement>, bytes: &'a [u8]) -> Option<Front<'a>>
    ensures { option_map front_of result ≡ first_piece within bytes.now }
{
    match within {
        Some(element) => Some(ended(PieceKind::Raw, behind_raw(element, bytes))),
        None => match bytes.split_first() {
            None => None,
            Some((b, rest)) => Some(if *b == b'<' { markup(rest) } else { text(rest) }),
        },
    }
}
