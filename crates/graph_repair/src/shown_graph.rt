ghost use Rattle.std.specs.Prelude.{◌≡◌, ◌≤◌, ◌+◌, ℕ, All, IfOk, [], length};
ghost use Rattle.tree_spec.specs.declared.LimitName.TheVariants.{Modules};
ghost use Rattle.tree_spec.specs.Limits.{limit_number};
ghost use Rattle.module_graph.specs.Graphs.{AreModules};
ghost use Rattle.trace_graph.specs.Links.{Links, IsLinked, IsLive};
ghost use Rattle.graph_repair.specs.Plans.{IsPlanned, shown};
ghost use Rattle.graph_repair.specs.Repairs.{Repairs, ShowsSame, most_at_once};

use crate::matching::find_kept;
use crate::parts::Plan;
use crate::planning::plan_of;
use crate::repair::{begin_anew, repair};
use module_graph::{Graph, Slot, View};
use shared_types::Memory;
use std::alloc::Global;
use std::marker::Model;
use trace_graph::TraceGraph;

/// A graph that shows the modules of a trace, one after another as traces change. Each module keeps its slot from one
/// trace to the next while nothing of it changes.
#[derive(Drop)]
pub struct ShownGraph {
    graph: Graph,
    slots: Vec<Slot>,
}

impl Model for ShownGraph {
    ghost use Rattle.trace_graph.specs.Links.{Links, IsLinked};
    ghost use Rattle.graph_repair.specs.Plans.{shown};

    ghost Value = { Links };

    ghost view = { λ t. shown t.graph t.slots.items };

    ghost invariant = { λ t. IsLinked (shown t.graph t.slots.items) };
}

impl ShownGraph {
    /// A graph that shows no module. It takes no memory yet.
    pub fn new(alloc: Global) -> ShownGraph
        ensures { result ≡ shown [] [] }
    {
        ShownGraph {
            graph: Graph::new(alloc),
            slots: Vec::new(alloc),
        }
    }

    /// The graph, to be looked at. What a plan prepares isn't seen in it.
    pub fn view(&self) -> View<'_>
        ensures graph { result ≡ self.now.graph }
        ensures linked { IsLinked self.now }
        ensures modules { AreModules self.now.graph }
    {
        self.graph.view()
    }

    /// The slots of the modules, in trace order.
    pub fn slots(&self) -> &[Slot]
        ensures slots { result.now ≡ self.now.slots }
        ensures live { All (IsLive self.now.graph) self.now.slots }
    {
        self.slots.as_slice()
    }

    /// Plans to show another trace, and takes all memory for that. Until the plan is committed the same is shown, also
    /// where there was no memory.
    pub fn plan(&mut self, alloc: Global, trace: &TraceGraph) -> Result<Plan, Memory>
        requires few { length trace.now.slots ≤ limit_number Modules }
        ensures same { ShowsSame self.old self.new }
        ensures few { length self.new.graph ≤ length self.old.graph + most_at_once }
        ensures planned { IfOk result (IsPlanned (length self.old.graph) self.new trace.now) }
    {
        let found = find_kept(alloc, &self.graph.view(), &self.slots, trace)?;
        plan_of(alloc, &mut self.graph, found, trace)
    }

    /// Shows the trace for which a plan was made. It takes no memory.
    pub fn commit(&mut self, plan: Plan)
        requires { (made : ℕ) × (l : Links) × IsPlanned made self.old l plan }
        ensures linked { IsLinked self.old }
        ensures repairs { (made : ℕ) (l : Links) → IsPlanned made self.old l plan → Repairs made self.old l self.new }
    {
        let Plan { begun, parts } = plan;
        begin_anew(&mut self.graph, begun);
        self.slots = repair(&mut self.graph, parts);
    }
}
