ghost use Rattle.std.specs.Prelude.{◌≡◌, Option, Some, option_copied, IfOk};
ghost use Rattle.std.specs.FinMap.{get};
ghost use Rattle.tree_spec.specs.Trees.{IsTree};
ghost use Rattle.tree_model.specs.Entries.{tree_of, entry_for, file_of};

use crate::entries::{Entries, entry_at, look_in, put_file, put_new, start};
use crate::numbers::is_listed;
use crate::{Failed, Folder, Path};
use shared_types::{Bytes, Listed, Memory};
use std::alloc::Global;
use tree_spec::{Entry, Look, LookFault};

/// A folder in memory, of which looks and writes with given numbers fail. Looks and writes are numbered apart, from 1.
#[derive(Drop)]
pub struct MemFolder {
    alloc: Global,
    entries: Entries,
    asked: Listed<Path>,
    looks: u64,
    writes: u64,
    look_faults: u64,
    write_faults: u64,
    failing_looks: Listed<u64>,
    failing_writes: Listed<u64>,
    ghost tree: { ∥ IsTree (tree_of entries) ∥₁ },
}

impl MemFolder {
    ghost use Rattle.tree_model.specs.Folders.{IsEmptyFolder, IsPutInto};

    /// A folder that holds the root alone, of which the looks and writes with these numbers fail.
    pub fn new(alloc: Global, looks: &[u64], writes: &[u64]) -> Result<MemFolder, Memory>
        ensures { IfOk result (λ folder. IsEmptyFolder folder looks.now writes.now) }
    {
        Ok(MemFolder {
            alloc,
            entries: start(alloc)?,
            asked: Listed::new(alloc),
            looks: 0,
            writes: 0,
            look_faults: 0,
            write_faults: 0,
            failing_looks: Listed::from_vec(Vec::from_slice(alloc, looks)?),
            failing_writes: Listed::from_vec(Vec::from_slice(alloc, writes)?),
        })
    }

    /// Makes a file of these bytes, or a folder, with the missing folders above it. It is no numbered call.
    /// False where something stands at the path or a file stands above it.
    pub fn put(&mut self, path: &Path, file: Option<&[u8]>) -> Result<bool, Memory>
        ensures { IsPutInto self.old path.now (entry_for file.entry) result self.new }
    {
        let entry = match file {
            None => Entry::Directory,
            Some(bytes) => Entry::Stored(Bytes::of(self.alloc, bytes)?),
        };
        put_new(self.alloc, &mut self.entries, path, entry)
    }

    /// Lends the bytes of the file at a path.
    pub fn file(&self, path: &Path) -> Option<&[u8]>
        ensures { option_copied result ≡ file_of (get (tree_of self.now.entries) path.now) }
    {
        match entry_at(&self.entries, path) {
            None => None,
            Some(Entry::Directory) => None,
            Some(Entry::Stored(bytes)) => Some(bytes.as_bytes()),
        }
    }
}

impl Folder for MemFolder {
    ghost use Rattle.tree_spec.proofs.DecidedTrees.{known_tree};
    ghost use Rattle.tree_model.specs.Folders.{state_of, IsLookOf, IsWriteOf};

    ghost state = { state_of };

    ghost told = { λ folder. known_tree (tree_of folder.entries) folder.tree };

    fn look(&mut self, alloc: Global, path: &Path, limit: u64) -> Result<Look, LookFault>
        ensures { IsLookOf self.old path.now limit result self.new }
    {
        self.looks = self.looks.saturating_add(1);
        if is_listed(self.failing_looks.as_slice(), self.looks) {
            self.look_faults = self.look_faults.saturating_add(1);
            return Err(LookFault::Failed);
        }
        let look = look_in(alloc, &self.entries, path, limit)?;
        self.asked.push(path.copy(alloc)?)?;
        Ok(look)
    }

    fn write(&mut self, path: &Path, bytes: &[u8]) -> Result<(), Failed>
        ensures { IsWriteOf self.old path.now bytes.now result self.new }
    {
        self.writes = self.writes.saturating_add(1);
        if is_listed(self.failing_writes.as_slice(), self.writes) {
            self.write_faults = self.write_faults.saturating_add(1);
            return Err(Failed);
        }
        if let Ok(true) = put_file(self.alloc, &mut self.entries, path, bytes) {
            return Ok(());
        }
        self.write_faults = self.write_faults.saturating_add(1);
        Err(Failed)
    }
}
