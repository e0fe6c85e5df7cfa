//! The laws of the graph, each the contract of a function with nothing to do.
ghost use Rattle.module_graph.specs.Laws.{NamesItsModule, DealsInOrder};

/// A slot names the module that it was given for, or none.
pub fn slot_names_its_module()
    ensures { NamesItsModule }
{}

/// Targets that are dealt out to modules are theirs in order, and nothing else of the modules changes.
pub fn targets_are_dealt()
    ensures { DealsInOrder }
{}
