ghost use Rattle.std.specs.Prelude.{◌≡◌, ◌<◌, [], length, IfSome, MatchOption};

use std::marker::Model;
use std::str;

/// How many bytes a text may have that lies in its value. With their number and the kind beside them a text takes 16
/// bytes, as it also does where it lies elsewhere: a pointer is kept at a multiple of 8.
const MOST: usize = 14;

/// A text that lies in the value itself.
#[derive(Drop)]
pub struct Short {
    len: u8,
    bytes: [u8; MOST],
}

impl Model for Short {
    ghost use Rattle.std.specs.Prelude.{◌≡◌, ◌≤◌, ◌++◌, List, ℕ, length, take, drop, IsUtf8};

    ghost Value = { List ℕ };

    ghost view = { λ s. take s.len s.bytes };

    ghost invariant = { λ s. (s.len ≤ 14) × (length s.bytes ≡ 14) × ∥ IsUtf8 (take s.len s.bytes) ∥₁ };
}

impl Short {
    /// The empty text.
    pub fn empty() -> Short
        ensures { result ≡ [] }
    {
        Short {
            len: 0,
            bytes: [0; MOST],
        }
    }

    /// A copy of a text, where it is short enough.
    pub fn of(text: &str) -> Option<Short>
        ensures { MatchOption result (14 < length text.now) (λ copy. copy ≡ text.now) }
    {
        if let Some(short) = Short::of_few(text) {
            return Some(short);
        }
        if text.len() > MOST {
            return None;
        }
        let mut bytes = [0; MOST];
        bytes[..text.len()].copy_from_slice(text.as_bytes());
        Some(Short {
            len: text.len() as u8,
            bytes,
        })
    }

    // A copy of a text of one to four bytes, as most numbers and many keys are. They are put together in a register
    // and stored at once: a processor waits where it loads together what it has just stored byte by byte.
    fn of_few(text: &str) -> Option<Short>
        ensures { IfSome result (λ copy. copy ≡ text.now) }
    {
        let (len, few) = match text.as_bytes() {
            [a] => (1, u32::from_le_bytes([*a, 0, 0, 0])),
            [a, b] => (2, u32::from_le_bytes([*a, *b, 0, 0])),
            [a, b, c] => (3, u32::from_le_bytes([*a, *b, *c, 0])),
            [a, b, c, d] => (4, u32::from_le_bytes([*a, *b, *c, *d])),
            _ => return None,
        };
        let [a, b, c, d] = few.to_le_bytes();
        Some(Short {
            len,
            bytes: [a, b, c, d, 0, 0, 0, 0, 0, 0, 0, 0, 0, 0],
        })
    }

    /// An equal text.
    pub fn copy(&self) -> Short
        ensures { result ≡ self.now }
    {
        Short {
            len: self.len,
            bytes: self.bytes,
        }
    }

    /// Lends the text.
    pub fn as_str(&self) -> &str
        ensures { result.now ≡ self.now }
    {
        unsafe { str::from_utf8_unchecked(&self.bytes[..self.len as usize]) }
    }
}
