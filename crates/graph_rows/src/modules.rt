ghost use Rattle.std.specs.Prelude.{◌≡◌, ◌<◌, length, Some, false, IfOk, IfSome};
ghost use Rattle.module_graph.specs.Modules.{IsModule};
ghost use Rattle.graph_rows.specs.Targets.{first_target};

use es_module_parser::outline;
use module_graph::{Graph, Module, Slot};
use shared_types::{Bytes, Listed, Memory, Steps};
use std::alloc::Global;
use std::rc::Rc;
use std::sync::ledger::Ledger;
use tree_model::Path;
use web_url::Suffix;

/// What is seen of a request that leads to a module, before and after that module is taken out.
pub struct Led {
    /// The slot of the module.
    pub second: Slot,
    /// The target of the request while the module is there.
    pub target: Option<Slot>,
    /// Whether the module is under its slot once it is taken out.
    pub is_there: bool,
    /// The target of the request then.
    pub after: Option<Slot>,
}

/// A module with this text at a path, with no target yet; None where the text or the path is none.
pub fn module_of<L: Ledger>(
    alloc: Global,
    path: &str,
    text: &String,
    steps: &mut Steps<L>,
) -> Result<Option<Module>, Memory> {
    let Ok(path) = Path::parse(alloc, path) else {
        return Ok(None);
    };
    let Ok(outline) = outline(alloc, text.as_str(), steps) else {
        return Ok(None);
    };
    let mut targets = Listed::new(alloc);
    for _ in 0..outline.requests.len() {
        targets.push(None)?;
    }
    Ok(Some(Module {
        path,
        suffix: Suffix::none(alloc),
        source: Rc::new(alloc, Listed::of(alloc, text.as_str().as_bytes())?)?,
        requests: Rc::new(alloc, outline.requests)?,
        targets,
    }))
}

/// The target of the first request of the module under a slot.
fn target_of(graph: &Graph, at: Slot) -> Option<Slot>
    ensures { result ≡ first_target graph.now at }
{
    match graph.view().module(at) {
        Some(module) => module.target(0),
        None => None,
    }
}

/// Adds two modules, leads the first request of the one to the other, and takes that out.
pub fn lead(alloc: Global, first: Module, second: Module) -> Result<Led, Memory>
    requires first { IsModule first }
    requires second { IsModule second }
    requires asks { 0 < length first.requests.value }
    ensures target { IfOk result (λ led. led.target ≡ Some led.second) }
    ensures gone { IfOk result (λ led. led.is_there ≡ false) }
    ensures after { IfOk result (λ led. led.after ≡ Some led.second) }
{
    let mut graph = Graph::new(alloc);
    graph.reserve(2)?;
    let from = graph.add(first);
    let second = graph.add(second);
    graph.connect(from, 0, second);
    let target = target_of(&graph, from);
    graph.remove(second);
    let is_there = graph.view().module(second).is_some();
    let after = target_of(&graph, from);
    Ok(Led {
        second,
        target,
        is_there,
        after,
    })
}
