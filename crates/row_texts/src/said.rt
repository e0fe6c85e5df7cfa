//! A text that is put together.

use std::alloc::{AllocError, Global};
use std::fmt::Write;
use std::str;

/// A text, and whether all of it found memory.
#[derive(Drop)]
pub struct Said {
    text: String,
    is_whole: bool,
}

impl Said {
    pub fn new(alloc: Global) -> Said {
        Said {
            text: String::new(alloc),
            is_whole: true,
        }
    }

    /// Puts a text at the end.
    pub fn push(&mut self, part: &str) {
        if self.text.push_str(part).is_err() {
            self.is_whole = false;
        }
    }

    /// Puts texts at the end, one after another.
    pub fn push_all(&mut self, parts: &[&str]) {
        for part in parts {
            self.push(part);
        }
    }

    /// Puts a number at the end.
    pub fn push_number(&mut self, number: u64) {
        if write!(self.text, "{number}").is_err() {
            self.is_whole = false;
        }
    }

    /// Puts a text and a place behind it at the end.
    pub fn push_place(&mut self, part: &str, at: usize) {
        self.push(part);
        self.push_number(at as u64);
    }

    /// Puts bytes at the end that are a text.
    pub fn push_bytes(&mut self, bytes: &[u8]) {
        self.push(str::from_utf8(bytes).unwrap_or("no text"));
    }

    pub fn as_str(&self) -> &str {
        self.text.as_str()
    }

    /// Whether it is this text, and no memory was missing.
    pub fn is(&self, wanted: &str) -> bool {
        self.is_whole && self.text.as_str() == wanted
    }

    /// Fails where memory was missing.
    pub fn whole(&self) -> Result<&str, AllocError> {
        if self.is_whole {
            Ok(self.text.as_str())
        } else {
            Err(AllocError)
        }
    }
}
