ghost use Rattle.std.specs.Prelude.{◌≡◌, []};
ghost use Rattle.tree_model.specs.Folders.{state_of};
ghost use Rattle.workload.specs.Sure.{sure_state};

use std::alloc::Global;
use tree_model::{Failed, Folder, Look, LookFault, MemFolder, Path};

/// A folder in memory of which no look fails.
#[derive(Drop)]
pub struct SureFolder {
    folder: MemFolder,
    ghost sure: { folder.failing_looks ≡ [] },
}

impl SureFolder {
    /// This folder, of which no look is to fail.
    pub fn over(folder: MemFolder) -> SureFolder
        requires { folder.failing_looks ≡ [] }
        ensures { result.folder ≡ folder }
    {
        SureFolder { folder }
    }
}

impl Folder for SureFolder {
    ghost use Rattle.tree_spec.proofs.DecidedTrees.{known_tree};
    ghost use Rattle.tree_model.specs.Entries.{tree_of};

    ghost state = { λ sure. sure_state sure.folder };

    ghost told = { λ sure. known_tree (tree_of sure.folder.entries) sure.folder.tree };

    fn look(&mut self, alloc: Global, path: &Path, limit: u64) -> Result<Look, LookFault> {
        self.folder.look(alloc, path, limit)
    }

    fn write(&mut self, path: &Path, bytes: &[u8]) -> Result<(), Failed> {
        self.folder.write(path, bytes)
    }
}
