ghost use Rattle.std.specs.Char.{is_ascii_whitespace, to_ascii_lowercase};
ghost use Rattle.std.specs.List.{list_any};
ghost use Rattle.std.specs.Prelude.{◌≡◌, ◌==◌, ◌&&◌, ◌||◌, not, false, true, [], ◌∷◌, None, Some, codes, bytes_eq};
ghost use Rattle.std.specs.Prelude.{reverse, option_map, is_some};
ghost use Rattle.page_spec.specs.Attributes.{skip_whitespace, attribute_text};
ghost use Rattle.page_spec.specs.ImportMaps.{is_broken, is_script, is_start_of, is_end_of, stripped, is_map_text};
ghost use Rattle.page_spec.specs.ImportMaps.{is_map_type, is_map_start, begins_map, raw_behind};
ghost use Rattle.page_spec.specs.Faults.{holds_ampersand, is_unclear};
ghost use Rattle.page_spec.specs.Injection.{is_place};
ghost use Rattle.page_spec.specs.Places.{IsPieceOf, part_at, text_at};
ghost use Rattle.html_inject.specs.Search.{AreNext, parts_behind, map_at, place_at};

use html_scan::{Piece, PieceKind, attribute_text, is_end_of, is_start_of, skip_whitespace};

// The bytes up to the last one that isn't white space.
fn without_last_whitespace(bytes: &[u8]) -> &[u8]
    ensures { result.now ≡ reverse (skip_whitespace (reverse bytes.now)) }
{
    let mut rest = bytes;
    while let Some((b, before)) = rest.split_last() {
        if !b.is_ascii_whitespace() {
            return rest;
        }
        rest = before;
    }
    rest
}

// Whether a script's type is that of an import map.
fn is_map_text(text: &[u8]) -> bool
    ensures { result ≡ is_map_text text.now }
{
    without_last_whitespace(skip_whitespace(text)).eq_ignore_ascii_case(b"importmap".as_slice())
}

fn holds_ampersand(text: &[u8]) -> bool
    ensures { result ≡ list_any (λ b. b == 38) text.now }
{
    let mut rest = text;
    while let Some((b, more)) = rest.split_first() {
        if *b == b'&' {
            return true;
        }
        rest = more;
    }
    false
}

/// Whether the piece is the start tag of a script.
pub(crate) fn is_script(text: &str, piece: Piece) -> bool
    requires { IsPieceOf text.now piece }
    ensures { result ≡ is_script (part_at text.now piece) }
{
    is_start_of(text, piece, b"script".as_slice())
}

fn has_map_type(text: &str, piece: Piece) -> bool
    requires { IsPieceOf text.now piece }
    ensures { result ≡ is_map_type (attribute_text (codes "type") (text_at text.now piece)) }
{
    match attribute_text(text, piece, b"type".as_slice()) {
        None => false,
        Some(value) => is_map_text(value),
    }
}

fn has_unclear_type(text: &str, piece: Piece) -> bool
    requires { IsPieceOf text.now piece }
    ensures { result ≡ holds_ampersand (attribute_text (codes "type") (text_at text.now piece)) }
{
    match attribute_text(text, piece, b"type".as_slice()) {
        None => false,
        Some(value) => holds_ampersand(value),
    }
}

fn has_source(text: &str, piece: Piece) -> bool
    requires { IsPieceOf text.now piece }
    ensures { result ≡ is_some (attribute_text (codes "src") (text_at text.now piece)) }
{
    match attribute_text(text, piece, b"src".as_slice()) {
        None => false,
        Some(_) => true,
    }
}

// `script`: whether the piece is the start tag of a script, here and below.
#[tactic(auto, unfolding(page_spec::specs::ImportMaps::is_map_start))]
fn is_map_start(text: &str, piece: Piece, script: bool) -> bool
    requires piece { IsPieceOf text.now piece }
    requires script { script ≡ is_script (part_at text.now piece) }
    ensures { result ≡ is_map_start (part_at text.now piece) }
{
    script && has_map_type(text, piece)
}

/// Where the raw text of the import map element stands that begins with the piece; None where none does.
pub(crate) fn map_at(
    text: &str,
    piece: Piece,
    next: Option<Piece>,
    script: bool,
) -> Option<(usize, usize)>
    requires next { AreNext text.now piece next }
    requires script { script ≡ is_script (part_at text.now piece) }
    ensures { result ≡ map_at text.now piece next }
{
    match next {
        None => None,
        Some(behind) => {
            if is_map_start(text, piece, script) {
                match behind.kind {
                    PieceKind::Raw => Some((behind.from, behind.to)),
                    _ => None,
                }
            } else {
                None
            }
        }
    }
}

/// Whether an import map element begins with the piece.
pub(crate) fn begins_map(text: &str, piece: Piece, next: Option<Piece>, script: bool) -> bool
    requires next { AreNext text.now piece next }
    requires script { script ≡ is_script (part_at text.now piece) }
    ensures { result ≡ begins_map (part_at text.now piece) (parts_behind text.now next) }
{
    map_at(text, piece, next, script).is_some()
}

/// Whether the piece is the start tag of a `base`.
pub(crate) fn is_base(text: &str, piece: Piece) -> bool
    requires { IsPieceOf text.now piece }
    ensures { result ≡ is_start_of (codes "base") (part_at text.now piece) }
{
    is_start_of(text, piece, b"base".as_slice())
}

pub(crate) fn is_broken(piece: Piece) -> bool
    ensures { result ≡ is_broken piece.kind }
{
    match piece.kind {
        PieceKind::Broken => true,
        _ => false,
    }
}

/// Whether the piece makes the page unclear.
pub(crate) fn is_unclear(text: &str, piece: Piece, next: Option<Piece>, script: bool) -> bool
    requires next { AreNext text.now piece next }
    requires script { script ≡ is_script (part_at text.now piece) }
    ensures { result ≡ is_unclear (part_at text.now piece) (parts_behind text.now next) }
{
    is_broken(piece)
        || is_base(text, piece)
        || script && has_unclear_type(text, piece)
        || begins_map(text, piece, next, script) && has_source(text, piece)
}

fn is_place(text: &str, piece: Piece, script: bool) -> bool
    requires piece { IsPieceOf text.now piece }
    requires script { script ≡ is_script (part_at text.now piece) }
    ensures { result ≡ is_place (part_at text.now piece) }
{
    script
        || is_start_of(text, piece, b"link".as_slice())
        || is_end_of(text, piece, b"head".as_slice())
}

/// Where the piece begins, where a map may be put before it.
pub(crate) fn place_at(text: &str, piece: Piece, script: bool) -> Option<usize>
    requires piece { IsPieceOf text.now piece }
    requires script { script ≡ is_script (part_at text.now piece) }
    ensures { result ≡ place_at text.now piece }
{
    if is_place(text, piece, script) {
        Some(piece.from)
    } else {
        None
    }
}
