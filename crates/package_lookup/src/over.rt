ghost use Rattle.std.specs.Prelude.{◌≡◌, List, ℕ, None, Some, IfOk, OnOk, OnErr, bytes_eq, option_copied, if◌then◌else◌};
ghost use Rattle.tree_spec.specs.declared.Look.{Look};
ghost use Rattle.package_lookup.specs.Looked.{over_at, Puts, Follows};

use crate::held::Held;
use shared_types::Memory;
use std::alloc::Global;
use std::collections::HashMap;
use tree_model::{Look, Path};

/// Looks that are to be laid over what a folder holds, each at its path.
#[derive(Drop)]
pub struct Over {
    looks: HashMap<Path, Held>,
}

impl Over {
    /// No looks.
    pub fn new(alloc: Global) -> Over
        ensures { (path : List ℕ) → over_at result path ≡ None }
    {
        Over {
            looks: HashMap::new(alloc),
        }
    }

    /// Makes room for so many looks more, so that the table of them isn't made anew again and again while they are put;
    /// where there is no memory for it, each makes its own.
    pub fn make_room(&mut self, more: usize)
        ensures { (path : List ℕ) → over_at self.new path ≡ over_at self.old path }
    {
        let _ = self.looks.reserve(more);
    }

    /// Puts a look at its path, in the place of one that was there.
    pub fn set(&mut self, alloc: Global, path: &Path, look: Look) -> Result<(), Memory>
        ensures set { OnOk result (Puts self.old path.now look self.new) }
        ensures same { OnErr result ((other : List ℕ) → over_at self.new other ≡ over_at self.old other) }
    {
        let path = path.copy(alloc)?;
        let held = Held::of(alloc, look)?;
        self.put(path, held)
    }

    pub(crate) fn put(&mut self, path: Path, held: Held) -> Result<(), Memory>
        ensures set { OnOk result (Puts self.old path held self.new) }
        ensures same { OnErr result ((other : List ℕ) → over_at self.new other ≡ over_at self.old other) }
    {
        self.looks.insert(path, held)?;
        Ok(())
    }

    /// Lays at a path what another lays there, with all bytes and records shared, or nothing where that lays nothing.
    pub fn follow(&mut self, alloc: Global, path: &Path, other: &Over) -> Result<(), Memory>
        ensures followed { OnOk result (Follows self.old path.now other.now self.new) }
        ensures same { OnErr result ((at : List ℕ) → over_at self.new at ≡ over_at self.old at) }
    {
        match other.find(path) {
            Some(held) => self.put(path.copy(alloc)?, held.copy()?),
            None => {
                self.remove(path);
                Ok(())
            }
        }
    }

    fn remove(&mut self, path: &Path)
        ensures { (at : List ℕ) → over_at self.new at ≡ (if bytes_eq path.now at then None else over_at self.old at) }
    {
        let _ = self.looks.remove(path);
    }

    /// The look at a path.
    pub(crate) fn find(&self, path: &Path) -> Option<&Held>
        ensures { option_copied result ≡ over_at self.now path.now }
    {
        self.looks.get(path)
    }
}
