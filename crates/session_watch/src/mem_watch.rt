ghost use Rattle.std.specs.Prelude.{◌≡◌, [], length, slice_get};
ghost use Rattle.session_watch.specs.Seen.{first_slot, slot_in, kept_in};

use crate::shown_module::{ShownModule, showing};
use crate::watch::Watch;
use module_graph::{Slot, View};
use shared_types::{Listed, Memory};
use std::alloc::Global;
use tree_model::Path;

/// It keeps in memory all that it is shown, and tells it.
#[derive(Drop)]
pub struct MemWatch {
    // None before the first.
    kept: Option<Listed<Listed<ShownModule>>>,
}

impl Watch for MemWatch {
    ghost use Rattle.std.specs.Prelude.{Some};
    ghost use Rattle.session_watch.specs.Seen.{kept_in};

    ghost seen = { λ watch. Some (kept_in watch.kept) };

    fn shown(&mut self, alloc: Global, slots: &[Slot], view: View<'_>) -> Result<(), Memory> {
        let more = showing(alloc, slots, &view)?;
        let mut kept = match self.kept.take() {
            Some(kept) => kept,
            None => Listed::new(alloc),
        };
        let pushed = kept.push(more);
        self.kept = Some(kept);
        pushed
    }
}

impl MemWatch {
    /// A watch that was shown nothing yet.
    pub fn new() -> MemWatch
        ensures { kept_in result.kept ≡ [] }
    {
        MemWatch { kept: None }
    }

    /// How often it was shown something. It takes no memory.
    pub fn len(&self) -> usize
        ensures { result ≡ length (kept_in self.now.kept) }
    {
        match &self.kept {
            Some(kept) => kept.len(),
            None => 0,
        }
    }

    /// The slot of the first module with this path in the showing with this number, counted from 0. It takes no memory.
    pub fn slot(&self, number: usize, path: &Path) -> Option<Slot>
        ensures { result ≡ slot_in path.now (slice_get (kept_in self.now.kept) number) }
    {
        match &self.kept {
            Some(kept) => match kept.at(number) {
                Some(modules) => first_at(modules.as_slice(), path),
                None => None,
            },
            None => None,
        }
    }
}

fn first_at(modules: &[ShownModule], path: &Path) -> Option<Slot>
    ensures { result ≡ first_slot path.now modules.now }
{
    let mut rest = modules;
    while let Some((module, more)) = rest.split_first() {
        if module.path == *path {
            return Some(module.slot);
        }
        rest = more;
    }
    None
}
