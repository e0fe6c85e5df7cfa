ghost use Rattle.std.specs.Prelude.{◌≡◌, ◌&&◌, ◌≤◌, ◌+◌, ◌-◌, false, [], ◌∷◌, None, Some, length, take, drop};
ghost use Rattle.page_spec.specs.Pieces.{tag_name, is_name};
ghost use Rattle.page_spec.specs.ImportMaps.{is_start_of, is_end_of};
ghost use Rattle.page_spec.specs.Places.{IsPieceOf, text_at, part_at};

use crate::names::is_named;
use page_spec::{Piece, PieceKind};

fn part(bytes: &[u8], from: usize, to: usize) -> &[u8]
    requires order { from ≤ to }
    requires most { to ≤ length bytes.now }
    ensures { result.now ≡ take (to - from) (drop from bytes.now) }
{
    &bytes[from..to]
}

/// The bytes of a piece.
pub fn text_of<'a>(text: &'a str, piece: Piece) -> &'a [u8]
    requires { IsPieceOf text.now piece }
    ensures bytes { result.now ≡ text_at text.now piece }
    ensures length { piece.from + length result.now ≡ piece.to }
{
    part(text.as_bytes(), piece.from, piece.to)
}

fn is_tag_of(tag: &[u8], name: &[u8]) -> bool
    ensures { result ≡ is_name name.now (tag_name (drop 1 tag.now)) }
{
    match tag.split_first() {
        None => false,
        Some((_, rest)) => is_named(name, rest),
    }
}

fn is_end_tag_of(tag: &[u8], name: &[u8]) -> bool
    ensures { result ≡ is_name name.now (tag_name (drop 2 tag.now)) }
{
    match tag.split_first() {
        None => false,
        Some((_, rest)) => is_tag_of(rest, name),
    }
}

/// Whether the piece is a start tag of that name, which is in lower case.
pub fn is_start_of(text: &str, piece: Piece, name: &[u8]) -> bool
    requires { IsPieceOf text.now piece }
    ensures { result ≡ is_start_of name.now (part_at text.now piece) }
{
    match piece.kind {
        PieceKind::Start => is_tag_of(text_of(text, piece), name),
        PieceKind::End => false,
        PieceKind::Text => false,
        PieceKind::Comment => false,
        PieceKind::Raw => false,
        PieceKind::Broken => false,
    }
}

/// Whether the piece is an end tag of that name, which is in lower case.
pub fn is_end_of(text: &str, piece: Piece, name: &[u8]) -> bool
    requires { IsPieceOf text.now piece }
    ensures { result ≡ is_end_of name.now (part_at text.now piece) }
{
    match piece.kind {
        PieceKind::End => is_end_tag_of(text_of(text, piece), name),
        PieceKind::Start => false,
        PieceKind::Text => false,
        PieceKind::Comment => false,
        PieceKind::Raw => false,
        PieceKind::Broken => false,
    }
}
