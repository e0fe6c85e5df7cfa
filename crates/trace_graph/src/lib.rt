//! The graph of a trace: its modules under slots, in trace order, and the slots to which the entries lead. Each request
//! has its target, which is the slot of a module.
#![tactic(auto)]

mod building;
mod trace_graph;

pub use module_graph::{Graph, Module as Vertex, ModuleView, Slot, View};
pub use trace_graph::TraceGraph;
