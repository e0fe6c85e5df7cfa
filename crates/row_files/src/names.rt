//! Texts and trees with names.

use crate::tree::Tree;
use row_texts::{RowFault, malformed};
use std::alloc::Global;

/// What rows may cite, by names.
#[derive(Drop)]
pub(crate) struct Names {
    texts: Vec<(String, Vec<u8>)>,
    trees: Vec<(String, Tree)>,
}

impl Names {
    pub fn new(alloc: Global) -> Names {
        Names {
            texts: Vec::new(alloc),
            trees: Vec::new(alloc),
        }
    }

    pub fn text(&self, name: &str) -> Result<&[u8], RowFault> {
        for (other, bytes) in self.texts.as_slice() {
            if other.as_str() == name {
                return Ok(bytes.as_slice());
            }
        }
        Err(malformed("no text has this name"))
    }

    pub fn tree(&self, name: &str) -> Result<&Tree, RowFault> {
        for (other, tree) in self.trees.as_slice() {
            if other.as_str() == name {
                return Ok(tree);
            }
        }
        Err(malformed("no tree has this name"))
    }

    /// Gives a text a name that no other text has.
    pub fn name_text(&mut self, alloc: Global, name: &str, bytes: Vec<u8>) -> Result<(), RowFault> {
        if name.is_empty() || self.text(name).is_ok() {
            return Err(malformed("a text has no name, or that of another"));
        }
        self.texts.push((String::from_str(alloc, name)?, bytes))?;
        Ok(())
    }

    /// Gives a tree a name that no other tree has.
    pub fn name_tree(&mut self, name: String, tree: Tree) -> Result<(), RowFault> {
        if name.is_empty() || self.tree(name.as_str()).is_ok() {
            return Err(malformed("a tree has no name, or that of another"));
        }
        self.trees.push((name, tree))?;
        Ok(())
    }
}
