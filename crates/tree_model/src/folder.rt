ghost use Rattle.std.specs.Prelude.{IfSome};
ghost use Rattle.tree_spec.specs.States.{FolderState, IsLooked, IsWritten};
ghost use Rattle.tree_spec.specs.Trees.{IsTree};

use crate::{Failed, Path};
use std::alloc::Global;
use tree_spec::{Look, LookFault};

/// A folder that is looked at path by path and written to. Whether it tells what it holds is its own choice.
pub trait Folder {
    /// The tree and the paths that were looked at, where they are told; how many looks and how many writes failed, up
    /// to the last number of their type.
    ghost state: { Self → FolderState };

    /// What stands at a path; a file of more than `limit` bytes is too large.
    fn look(&mut self, alloc: Global, path: &Path, limit: u64) -> Result<Look, LookFault>
        ensures looked { IsLooked (state self.old) path.now limit result (state self.new) };

    /// Makes a file of these bytes, in the place of one that is there, and the missing folders above it.
    fn write(&mut self, path: &Path, bytes: &[u8]) -> Result<(), Failed>
        ensures written { IsWritten (state self.old) path.now bytes.now result (state self.new) };

    /// What is told is a tree.
    ghost told: { (folder : Self) → IfSome (state folder).holds IsTree };
}
