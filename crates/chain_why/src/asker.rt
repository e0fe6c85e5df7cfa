ghost use Rattle.std.specs.Prelude.{◌≡◌, length, slice_get};
ghost use Rattle.slot_arena.specs.Slots.{value_at};
ghost use Rattle.chain_why.specs.Shown.{AreSet};
ghost use Rattle.chain_why.specs.Askers.{asks, asked_at, IsWhole};

use crate::reached::Reached;
use indexmap::IndexSet;
use module_graph::{ModuleView, Slot, View};

/// Who asks: the page, for its roots, or the module under a slot, if there is one.
#[derive(Drop)]
pub(crate) enum Asker<'r, 'v> {
    Page(&'r [Slot]),
    Loaded(Option<ModuleView<'v>>),
}

impl<'r, 'v> Asker<'r, 'v> {
    /// The number of its requests.
    pub(crate) fn len(&self) -> usize
        ensures { result ≡ length (asks self.now) }
    {
        match self {
            Asker::Page(roots) => roots.len(),
            Asker::Loaded(Some(module)) => module.requests(),
            Asker::Loaded(None) => 0,
        }
    }

    /// Where the request with this number leads, counted from 0.
    pub(crate) fn target(&self, number: usize) -> Option<Slot>
        requires { IsWhole self.now }
        ensures { result ≡ slice_get (asks self.now) number }
    {
        match self {
            Asker::Page(roots) => roots.get(number).copied(),
            Asker::Loaded(Some(module)) => module.target(number),
            Asker::Loaded(None) => None,
        }
    }
}

/// The asker at a place: the page, and behind it the modules in the order in which they were reached.
pub(crate) fn asker_at<'r, 'v>(
    view: &View<'v>,
    roots: &'r [Slot],
    reached: &IndexSet<Reached>,
    place: usize,
) -> Asker<'r, 'v>
    requires { AreSet view.now }
    ensures asks { asks result ≡ asked_at view.now roots.now reached.now.keys place }
    ensures whole { IsWhole result }
{
    if place == 0 {
        return Asker::Page(roots);
    }
    match reached.get_index(place - 1) {
        Some(step) => Asker::Loaded(view.module(step.slot)),
        None => Asker::Loaded(None),
    }
}
