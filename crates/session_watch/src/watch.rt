ghost use Rattle.std.specs.Prelude.{◌≡◌, All, List, Option, OnOk, OnErr};
ghost use Rattle.trace_graph.specs.Links.{IsLive};
ghost use Rattle.session_spec.specs.Showings.{Shown};
ghost use Rattle.session_watch.specs.Seen.{showing_of, Grows};

use module_graph::{Slot, View};
use shared_types::Memory;
use std::alloc::Global;

/// Who is shown the modules of a session, at its opening and at each edit that is accepted.
pub trait Watch {
    /// What was shown so far, where it is told.
    ghost seen: { Self → Option (List (List Shown)) };

    /// Shows the modules under these slots of a graph, in trace order.
    fn shown(&mut self, alloc: Global, slots: &[Slot], view: View<'_>) -> Result<(), Memory>
        requires live { All (IsLive view) slots.now }
        ensures sees { OnOk result (Grows (seen self.old) (seen self.new) (showing_of view.entry slots.now)) }
        ensures stays { OnErr result (seen self.new ≡ seen self.old) };
}
