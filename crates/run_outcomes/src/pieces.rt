//! A source whose bytes come in pieces.

use shared_types::Memory;
use std::alloc::Global;
use tree_model::{Failed, MemSource, Source};

/// One piece, and how many of its bytes are still to come.
#[derive(Drop)]
struct Piece {
    source: MemSource,
    left: usize,
}

/// A source that gives bytes of one piece at a time, of which the calls with given numbers fail. They are numbered from
/// 1.
#[derive(Drop)]
pub struct Pieces {
    pieces: Vec<Piece>,
    at: usize,
    takes: u64,
    faults: u64,
    failing: Vec<u64>,
}

impl Pieces {
    /// A source of these bytes in pieces of at most so many, of which the calls with these numbers fail.
    pub fn new(alloc: Global, bytes: &[u8], most: usize, takes: &[u64]) -> Result<Pieces, Memory> {
        Ok(Pieces {
            pieces: pieces_of(alloc, bytes, most.max(1))?,
            at: 0,
            takes: 0,
            faults: 0,
            failing: Vec::from_slice(alloc, takes)?,
        })
    }
}

fn pieces_of(alloc: Global, bytes: &[u8], most: usize) -> Result<Vec<Piece>, Memory> {
    let mut pieces = Vec::new(alloc);
    let mut rest = bytes;
    for _ in 0..bytes.len() {
        if rest.is_empty() {
            break;
        }
        let (piece, behind) = rest.split_at_checked(most).unwrap_or((rest, &[]));
        pieces.push(Piece {
            source: MemSource::new(alloc, piece, &[])?,
            left: piece.len(),
        })?;
        rest = behind;
    }
    Ok(pieces)
}

impl Source for Pieces {
    ghost use Rattle.std.specs.Prelude.{None};

    ghost state = { λ pieces. record { left = None; latest = None; faults = pieces.faults } };

    fn take(&mut self, into: &mut [u8]) -> Result<usize, Failed> {
        self.takes = self.takes.saturating_add(1);
        if is_among(self.takes, self.failing.as_slice()) {
            self.faults = self.faults.saturating_add(1);
            return Err(Failed);
        }
        let Some(piece) = self.pieces.get_mut(self.at) else {
            return Ok(0);
        };
        match piece.source.take(into) {
            Err(failed) => {
                self.faults = self.faults.saturating_add(1);
                Err(failed)
            }
            Ok(count) => {
                piece.left = piece.left.saturating_sub(count);
                if piece.left == 0 {
                    self.at = self.at.saturating_add(1);
                }
                Ok(count)
            }
        }
    }
}

fn is_among(number: u64, numbers: &[u64]) -> bool {
    for other in numbers {
        if *other == number {
            return true;
        }
    }
    false
}
