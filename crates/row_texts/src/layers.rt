//! Layers, as files of cases ask them.

use crate::fault::{RowFault, malformed};
use crate::said::Said;
use std::alloc::Global;
use tree_model::Path;

/// A question to a layer.
#[derive(Clone, Copy)]
pub struct Question<'a> {
    /// The name of the layer.
    pub layer: &'a str,
    /// What stands behind its name.
    pub rest: &'a str,
    /// The text that it is given.
    pub given: &'a str,
    pub asked: &'a [u8],
    /// The answer that must come.
    pub wanted: &'a str,
}

/// What answers questions, over a tree where it has one.
pub trait Layers {
    /// Makes the tree empty.
    fn clear(&mut self, _alloc: Global) -> Result<(), RowFault> {
        Ok(())
    }

    /// Puts a file with these bytes, or a folder, into the tree.
    fn put(&mut self, _alloc: Global, _path: &Path, _file: Option<&[u8]>) -> Result<(), RowFault> {
        Err(malformed("these layers have no tree"))
    }

    /// Says the answer to a question.
    fn answer(&mut self, alloc: Global, question: &Question<'_>, said: &mut Said);
}
