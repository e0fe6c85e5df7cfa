ghost use Rattle.std.specs.Prelude.{IfOk, IfErr};
ghost use Rattle.html_scan.specs.Listing.{Lists, IsFault};

use crate::scanner::Scanner;
use page_spec::{Piece, PieceKind};
use shared_types::Listed;
use std::alloc::{AllocError, Global};

/// The pieces of a page in their order.
pub type Pieces = Listed<Piece>;

/// Why a page's pieces aren't listed. A place is an offset in the page, in bytes.
#[derive(Clone, Copy, Debug, PartialEq, Eq)]
pub enum ScanFault {
    /// A broken piece begins at the place.
    PageUnclear { at: usize },
    /// Want of memory.
    Memory,
}

impl From<AllocError> for ScanFault {
    ghost use Rattle.std.specs.Prelude.{◌≡◌};
    ghost use Rattle.html_scan.specs.declared.whole.ScanFault.TheVariants.{Memory};

    ghost from_gives = { λ _ fault. fault ≡ Memory };

    fn from(_: AllocError) -> ScanFault {
        ScanFault::Memory
    }
}

/// All pieces of a page, or the place of its broken one.
pub fn pieces(alloc: Global, text: &str) -> Result<Pieces, ScanFault>
    ensures pieces { IfOk result (λ pieces. Lists text.now pieces) }
    ensures fault { IfErr result (λ fault. IsFault text.now fault) }
{
    let mut scanner = Scanner::new(text);
    let mut list = Listed::new(alloc);
    'read: loop {
        match scanner.next() {
            None => return Ok(list),
            Some(piece) => {
                match piece.kind {
                    PieceKind::Broken => return Err(ScanFault::PageUnclear { at: piece.from }),
                    _ => list.push(piece)?,
                }
            }
        }
    }
}
