//! The module graph: modules under slots, and to each of their requests the slot of the module that answers it. A
//! contract sees a graph as its arena's places. Views lend what a module has, as it stands.
#![tactic(auto)]

mod graph;
mod laws;
mod lists;
mod module;
mod view;

pub use graph::Graph;
pub use laws::{slot_names_its_module, targets_are_dealt};
pub use module::{Module, Targets};
pub use slot_arena::Slot;
pub use view::{ModuleView, View};
