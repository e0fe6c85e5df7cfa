//! What a session says, reply by reply.

use shared_types::Memory;
use std::alloc::Global;
use std::str;

/// Where the parts of a session's output end: 0, and behind each line that is no line of a map, and behind each map.
#[derive(Drop)]
pub struct Replies {
    ends: Vec<usize>,
    /// Whether a map stands behind the part that ends there.
    are_fronts: Vec<bool>,
}

impl Replies {
    /// Those of what a session said.
    pub fn of(alloc: Global, said: &[u8]) -> Result<Replies, Memory> {
        let mut replies = Replies {
            ends: vec![in alloc; 0]?,
            are_fronts: vec![in alloc; false]?,
        };
        match replies.push_all(said) {
            Ok(()) => Ok(replies),
            Err(fault) => Err(fault),
        }
    }

    fn push_all(&mut self, said: &[u8]) -> Result<(), Memory> {
        let mut end = 0;
        for _ in 0..said.len() {
            let Some(line) = line_at(said, end) else {
                break;
            };
            end = end.saturating_add(line.len()).saturating_add(1);
            let map = map_bytes(line);
            self.push(end, map > 0)?;
            if map > 0 {
                end = end.saturating_add(map);
                self.push(end, false)?;
            }
        }
        Ok(())
    }

    fn push(&mut self, end: usize, is_front: bool) -> Result<(), Memory> {
        self.ends.push(end)?;
        self.are_fronts.push(is_front)?;
        Ok(())
    }

    /// The ends of all that is given at once.
    pub fn given(&self) -> &[usize] {
        self.ends.as_slice()
    }

    /// Whether the end with this number is that of a whole reply.
    pub fn is_whole(&self, number: usize) -> bool {
        match self.are_fronts.as_slice().get(number) {
            Some(is_front) => !*is_front,
            None => false,
        }
    }
}

// The line that begins there, without its end; None where none does.
fn line_at(said: &[u8], start: usize) -> Option<&[u8]> {
    let rest = said.get(start..)?;
    let mut length = 0;
    for byte in rest {
        if *byte == b'\n' {
            return rest.get(..length);
        }
        length = length.saturating_add(1);
    }
    None
}

// How many bytes of a map stand behind a line.
fn map_bytes(line: &[u8]) -> usize {
    let text = str::from_utf8(line).unwrap_or("");
    match text.strip_prefix("map ") {
        None => 0,
        Some(number) => number.parse::<usize>().unwrap_or(0),
    }
}
