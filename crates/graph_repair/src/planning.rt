ghost use Rattle.std.specs.Prelude.{◌≡◌, ◌≤◌, ◌+◌, IfOk, length, [], replicate, None};
ghost use Rattle.tree_spec.specs.declared.LimitName.TheVariants.{Modules};
ghost use Rattle.tree_spec.specs.Limits.{limit_number};
ghost use Rattle.slot_arena.specs.Counts.{live};
ghost use Rattle.slot_arena.specs.declared.slot.Slot as declared;
ghost use Rattle.std.specs.Prelude.{List};
ghost use Rattle.module_graph.specs.Graphs.{AreModules};
ghost use Rattle.graph_repair.specs.Finding.{IsFound};
ghost use Rattle.graph_repair.specs.Plans.{IsBegun, IsPlanned, shown};
ghost use Rattle.graph_repair.specs.Repairs.{ShowsSame, most_at_once};

use crate::matching::{Found, missing_in, somes_of};
use crate::parts::{Parts, Plan, parts_of};
use module_graph::{Graph, Slot};
use shared_types::Memory;
use std::alloc::Global;
use trace_graph::TraceGraph;

/// The number of places that a graph has at most before another is begun.
const MOST_MADE: u64 = (1 << 32) - 64;

/// The plan for a trace of which this is found in a graph. The graph gets the places for what is added.
pub(crate) fn plan_of(
    alloc: Global,
    graph: &mut Graph,
    found: Found,
    trace: &TraceGraph,
) -> Result<Plan, Memory>
    requires few { length trace.now.slots ≤ limit_number Modules }
    requires modules { AreModules graph.old }
    requires each { length found.keeps.items ≡ length trace.now.slots }
    ensures same { (slots : List declared.Slot) → ShowsSame (shown graph.old slots) (shown graph.new slots) }
    ensures few { length graph.new ≤ length graph.old + most_at_once }
    ensures planned { IfOk result (λ plan. (slots : List declared.Slot)
        → IsFound graph.old slots trace.now.graph trace.now.slots found.left.items found.keeps.items
        → live graph.old ≡ length slots
        → IsPlanned (length graph.old) (shown graph.new slots) trace.now plan) }
{
    let Found { keeps, left } = found;
    let added = missing_in(&keeps);
    if graph.made() as u64 + added as u64 >= MOST_MADE {
        return begun(alloc, trace);
    }
    graph.reserve(added as u32)?;
    let gone = somes_of(alloc, &left)?;
    Ok(Plan {
        begun: None,
        parts: parts_of(alloc, gone, keeps, trace)?,
    })
}

// The plan to begin a new graph for a trace.
fn begun(alloc: Global, trace: &TraceGraph) -> Result<Plan, Memory>
    requires few { length trace.now.slots ≤ limit_number Modules }
    ensures { IfOk result (IsBegun trace.now) }
{
    let count = trace.len();
    let mut graph = Graph::new(alloc);
    graph.reserve(count as u32)?;
    let mut keeps = Vec::new(alloc);
    keeps.resize(count, None)?;
    Ok(Plan {
        begun: Some(graph),
        parts: parts_of(alloc, Vec::new(alloc), keeps, trace)?,
    })
}
