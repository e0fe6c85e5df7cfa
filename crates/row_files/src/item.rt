//! A line with the block below it.

use row_texts::{RowFault, is_nothing, malformed, unescaped};
use std::alloc::Global;

/// A line, and the lines of its block.
#[derive(Drop)]
pub(crate) struct Item {
    pub line: u64,
    pub head: String,
    pub block: Option<Vec<u8>>,
}

impl Item {
    /// The item that begins with a line.
    pub fn new(alloc: Global, line: u64, head: &str) -> Result<Item, RowFault> {
        Ok(Item {
            line,
            head: String::from_str(alloc, head)?,
            block: None,
        })
    }

    /// Takes a line of the block, from behind its `|`.
    pub fn push(&mut self, alloc: Global, text: &str) -> Result<(), RowFault> {
        let Some(text) = block_text(text) else {
            return Err(malformed("a line of a block wants a space behind `|`"));
        };
        if is_nothing(self.head.as_str()) {
            return Err(malformed("a block stands below nothing"));
        }
        self.push_bytes(line_of(alloc, text)?)
    }

    fn push_bytes(&mut self, bytes: Vec<u8>) -> Result<(), RowFault> {
        match &mut self.block {
            None => self.block = Some(bytes),
            Some(block) => block.extend_from_slice(bytes.as_slice())?,
        }
        Ok(())
    }

    /// Fails where there is a block.
    pub fn without_block(&self) -> Result<(), RowFault> {
        match &self.block {
            None => Ok(()),
            Some(_) => Err(malformed("this line has no block")),
        }
    }
}

/// The bytes of a line with escapes, and its end.
pub(crate) fn line_of(alloc: Global, text: &str) -> Result<Vec<u8>, RowFault> {
    let line = format!(in alloc; "{text}\n")?;
    unescaped(alloc, line.as_str(), None)
}

fn block_text(text: &str) -> Option<&str> {
    if text.is_empty() {
        Some(text)
    } else {
        text.strip_prefix(' ')
    }
}
