use crate::watch::Watch;
use module_graph::{Slot, View};
use shared_types::Memory;
use std::alloc::Global;

/// It keeps nothing of what it is shown, and tells nothing.
#[derive(Clone, Copy, Debug, PartialEq, Eq)]
pub struct Unwatched;

impl Watch for Unwatched {
    ghost use Rattle.std.specs.Prelude.{None};

    ghost seen = { λ watch. None };

    fn shown(&mut self, _alloc: Global, _slots: &[Slot], _view: View<'_>) -> Result<(), Memory> {
        Ok(())
    }
}
