//! One graph of modules over many traces. A repair leaves what is the same in both under its slot, takes out what is gone
//! and adds what is new. A plan takes all the memory; to commit it takes none and can't fail.
#![tactic(auto)]

ghost use Rattle.graph_repair.specs.Neighbours.{SlotsLast};

mod key;
mod leads;
mod likeness;
mod matching;
mod parts;
mod planning;
mod repair;
mod shown_graph;

pub use module_graph::{ModuleView, Slot, View};
pub use parts::Plan;
pub use shown_graph::ShownGraph;

/// Between two traces that are shown one after another, what is in both has one slot.
pub fn slots_last()
    ensures { SlotsLast }
{}
