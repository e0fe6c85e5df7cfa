//! The pieces of a page, the values of its attributes, and a map that is put into it.

use html_inject::{InjectFault, inject};
use html_scan::{Piece, PieceKind, Scanner, attribute};
use row_texts::Said;
use std::alloc::Global;

fn letter(kind: PieceKind) -> &'static str {
    match kind {
        PieceKind::Text => "T",
        PieceKind::Comment => "C",
        PieceKind::Start => "S",
        PieceKind::End => "E",
        PieceKind::Raw => "R",
        PieceKind::Broken => "B",
    }
}

fn push_piece(piece: Piece, said: &mut Said) {
    said.push_place(letter(piece.kind), piece.to.saturating_sub(piece.from));
    said.push(" ");
}

/// The pieces of a page, each as the letter of its kind and its length: T text, C a comment, S a start tag, E an end
/// tag, R raw text, B a broken piece. Behind them is `end`.
pub fn tell_pieces(page: &str, said: &mut Said) {
    let mut scanner = Scanner::new(page);
    for _ in 0..=page.len() {
        match scanner.next() {
            Some(piece) => push_piece(piece, said),
            None => {
                said.push("end");
                return;
            }
        }
    }
}

/// The value of the attribute with this name in a start tag, or `none`.
pub fn tell_attribute(name: &str, tag: &str, said: &mut Said) {
    let mut scanner = Scanner::new(tag);
    let Some(piece) = scanner.next() else {
        said.push("no tag");
        return;
    };
    match attribute(tag, piece, name) {
        None => said.push("none"),
        Some((from, to)) => {
            said.push_place("", from);
            said.push_place("..", to);
            said.push_all(&[" ", tag.get(from..to).unwrap_or("no text")]);
        }
    }
}

fn push_fault(fault: InjectFault, said: &mut Said) {
    match fault {
        InjectFault::PageUnclear { at } => said.push_place("PageUnclear at ", at),
        InjectFault::TwoMaps { at } => said.push_place("TwoMaps at ", at),
        InjectFault::NoPlace => said.push("NoPlace"),
        InjectFault::Memory => said.push("memory"),
    }
}

/// A page with the given map in it, or what keeps it out.
pub fn tell_injected(alloc: Global, map: &str, page: &[u8], said: &mut Said) {
    match inject(alloc, page, map.as_bytes()) {
        Ok(page) => said.push_bytes(page.as_slice()),
        Err(fault) => push_fault(fault, said),
    }
}
