//! A folder of which it is known afterwards what was asked of it.

use std::alloc::Global;
use tree_model::{Failed, Folder, Look, LookFault, Path, Paths};

/// A folder with the paths that were looked at and those that were written, in their order.
#[derive(Drop)]
pub struct Watched<F> {
    folder: F,
    alloc: Global,
    looked: Paths,
    written: Paths,
    /// Whether no path is missing for want of memory.
    is_whole: bool,
}

impl<F> Watched<F> {
    /// A folder of which nothing was asked yet.
    pub fn new(alloc: Global, folder: F) -> Watched<F> {
        Watched {
            folder,
            alloc,
            looked: Paths::new(alloc),
            written: Paths::new(alloc),
            is_whole: true,
        }
    }

    /// The folder itself.
    pub fn folder(&self) -> &F {
        &self.folder
    }

    /// The paths that were looked at, also where the look failed.
    pub fn looked(&self) -> &[Path] {
        self.looked.as_slice()
    }

    /// The paths of the writes that didn't fail.
    pub fn written(&self) -> &[Path] {
        self.written.as_slice()
    }

    /// Whether no path is missing for want of memory.
    pub fn is_whole(&self) -> bool {
        self.is_whole
    }
}

impl<F: Folder> Folder for Watched<F> {
    ghost state = { λ watched. F.state watched.folder };

    ghost told = { λ watched. F.told watched.folder };

    fn look(&mut self, alloc: Global, path: &Path, limit: u64) -> Result<Look, LookFault> {
        let is_kept = keep(self.alloc, &mut self.looked, path);
        self.is_whole = self.is_whole && is_kept;
        self.folder.look(alloc, path, limit)
    }

    fn write(&mut self, path: &Path, bytes: &[u8]) -> Result<(), Failed> {
        match self.folder.write(path, bytes) {
            Err(failed) => Err(failed),
            Ok(()) => {
                let is_kept = keep(self.alloc, &mut self.written, path);
                self.is_whole = self.is_whole && is_kept;
                Ok(())
            }
        }
    }
}

fn keep(alloc: Global, paths: &mut Paths, path: &Path) -> bool {
    match path.copy(alloc) {
        Err(_) => false,
        Ok(copy) => paths.push(copy).is_ok(),
    }
}
