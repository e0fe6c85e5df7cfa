ghost use Rattle.std.specs.Prelude.{◌≡◌, ℕ, None, Some, Ok, Err, false, is_some};
ghost use Rattle.page_spec.specs.Places.{IsPieceOf, part_at};
ghost use Rattle.page_spec.specs.Faults.{raw_fault, fault_at};
ghost use Rattle.page_spec.specs.ImportMaps.{is_script, raw_behind};
ghost use Rattle.html_inject.specs.Search.{IsBehind, AreNext, parts_behind, map_at, plain_fault, found_more, chosen};
ghost use Rattle.html_inject.specs.Search.{IsSite};

use crate::comments::comment_at;
use crate::import_maps::{begins_map, is_base, is_broken, is_script, is_unclear, map_at, place_at};
use html_scan::{Piece, PieceKind, Scanner, text_of};
use page_spec::InjectFault;

/// What a search has found: the raw text of the first import map element, and the first place for a new one.
#[derive(Clone, Copy)]
pub struct Found {
    pub map: Option<(usize, usize)>,
    pub place: Option<usize>,
}

/// Where a map goes.
#[derive(Clone, Copy)]
pub enum Site {
    /// In place of the bytes from one offset to the other.
    Map { from: usize, to: usize },
    /// Before the offset, as a new element.
    Place { at: usize },
}

// The fault of a script's raw text, where that is what stands next, at the offset.
fn raw_fault(text: &str, from: usize, next: Option<Piece>) -> Option<InjectFault>
    requires { IsBehind text.now from next }
    ensures { result ≡ raw_fault from (raw_behind (parts_behind text.now next)) }
{
    match next {
        None => None,
        Some(raw) => match raw.kind {
            PieceKind::Raw => match comment_at(raw.from, raw.to, text_of(text, raw)) {
                None => None,
                Some(at) => Some(InjectFault::PageUnclear { at }),
            },
            _ => None,
        },
    }
}

// The fault of a piece that begins no script.
fn plain_fault(text: &str, piece: Piece) -> Option<InjectFault>
    requires { IsPieceOf text.now piece }
    ensures { result ≡ plain_fault piece.from (part_at text.now piece) }
{
    if is_broken(piece) || is_base(text, piece) {
        Some(InjectFault::PageUnclear { at: piece.from })
    } else {
        None
    }
}

// The fault of a piece; `script`: it is the start tag of a script; `seen`: an import map element came before.
fn fault_at(
    text: &str,
    piece: Piece,
    next: Option<Piece>,
    script: bool,
    seen: bool,
) -> Option<InjectFault>
    requires next { AreNext text.now piece next }
    requires script { script ≡ is_script (part_at text.now piece) }
    ensures { result ≡ fault_at piece.from seen (part_at text.now piece) (parts_behind text.now next) }
{
    if !script {
        return plain_fault(text, piece);
    }
    if is_unclear(text, piece, next, script) {
        Some(InjectFault::PageUnclear { at: piece.from })
    } else if seen && begins_map(text, piece, next, script) {
        Some(InjectFault::TwoMaps { at: piece.from })
    } else {
        raw_fault(text, piece.to, next)
    }
}

impl Found {
    // What is found with a piece as well; `script`: it is the start tag of a script.
    fn more(self, text: &str, piece: Piece, next: Option<Piece>, script: bool) -> Found
        requires next { AreNext text.now piece next }
        requires script { script ≡ is_script (part_at text.now piece) }
        ensures { result ≡ found_more text.now self piece next }
    {
        let map = match self.map {
            None => map_at(text, piece, next, script),
            Some(map) => Some(map),
        };
        let place = match self.place {
            None => place_at(text, piece, script),
            Some(place) => Some(place),
        };
        Found { map, place }
    }

    fn site(self) -> Result<Site, InjectFault>
        ensures { result ≡ chosen self.map self.place }
    {
        match self.map {
            Some((from, to)) => Ok(Site::Map { from, to }),
            None => match self.place {
                Some(at) => Ok(Site::Place { at }),
                None => Err(InjectFault::NoPlace),
            },
        }
    }
}

/// Where a map goes in the page, or the fault that decides.
pub(crate) fn site_in(text: &str) -> Result<Site, InjectFault>
    ensures { IsSite text.now result }
{
    let mut scanner = Scanner::new(text);
    let mut found = Found {
        map: None,
        place: None,
    };
    let mut next = scanner.next();
    while let Some(piece) = next {
        next = scanner.next();
        let script = is_script(text, piece);
        match fault_at(text, piece, next, script, found.map.is_some()) {
            None => found = found.more(text, piece, next, script),
            Some(fault) => return Err(fault),
        }
    }
    found.site()
}
