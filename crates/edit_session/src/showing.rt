ghost use Rattle.std.specs.Prelude.{◌≡◌, Some, None, [], true, is_some, length, All, IfOk, OnOk};
ghost use Rattle.generator_spec.specs.Generation.{PageIsFile};
ghost use Rattle.generation.specs.Mapping.{MapsTrace};
ghost use Rattle.graph_repair.specs.Plans.{shown};
ghost use Rattle.graph_repair.specs.declared.parts.Plan as declared;
ghost use Rattle.trace_graph.specs.Links.{IsLinked, IsLive};
ghost use Rattle.edit_session.specs.Shown.{KeepsShown, IsPlan, IsPlannedBy, IsNextShown, NoMorePlaces};

use generation::{Generated, KeptMap, Stop, map_by};
use graph_repair::{Plan, ShownGraph, Slot, View};
use request_trace::{Config, Trace};
use shared_types::Memory;
use std::alloc::Global;
use std::marker::Model;

/// The modules that a session shows, and the plan to show others, if one is made. What is kept of its maps lies beside
/// them: no contract sees it, since it serves each trace, whatever becomes of an edit.
#[derive(Drop)]
pub(crate) struct Showing {
    graph: ShownGraph,
    plan: Option<Plan>,
    kept: KeptMap,
}

impl Model for Showing {
    ghost use Rattle.edit_session.specs.Shown.{Shows, HasPlan};

    ghost Value = { Shows };

    ghost view = { λ t. record { links = t.graph; plan = t.plan } };

    ghost invariant = { λ t. HasPlan t.graph t.plan };
}

impl Showing {
    /// No module is shown.
    pub(crate) fn new(alloc: Global) -> Showing
        ensures { result.links ≡ shown [] [] }
    {
        Showing {
            graph: ShownGraph::new(alloc),
            plan: None,
            kept: KeptMap::new(alloc),
        }
    }

    /// The map of a trace, by what is kept of earlier ones.
    pub(crate) fn map(
        &mut self,
        alloc: Global,
        config: &Config,
        trace: &Trace,
    ) -> Result<Generated, Stop>
        ensures maps { MapsTrace config.now trace.now.gathered result }
        ensures page { IfOk result (λ found. PageIsFile config.now) }
        ensures same { self.new ≡ self.old }
    {
        map_by(alloc, config, trace, &mut self.kept)
    }

    /// Plans to show the modules of a trace.
    pub(crate) fn plan(&mut self, alloc: Global, trace: &Trace) -> Result<(), Memory>
        ensures shown { KeepsShown self.old.links self.new.links }
        ensures planned { OnOk result (IsPlannedBy (length self.old.links.graph) trace.now self.new) }
    {
        // What is known of a trace is known where it is looked at.
        let _view = trace.view();
        let _count = trace.len();
        self.plan = None;
        let plan = self.graph.plan(alloc, trace.graph())?;
        self.plan = Some(plan);
        Ok(())
    }

    /// Shows what was planned. It takes no memory.
    pub(crate) fn commit(&mut self)
        requires { is_some self.old.plan ≡ true }
        ensures shown { (plan : declared.Plan) → self.old.plan ≡ Some plan
            → IsNextShown self.old.links plan self.new.links }
        ensures places { NoMorePlaces self.old.links self.new.links }
    {
        match self.plan.take() {
            None => {}
            Some(plan) => show(&mut self.graph, plan),
        }
    }

    /// The graph, to be looked at.
    pub(crate) fn view(&self) -> View<'_>
        ensures graph { result ≡ self.now.links.graph }
        ensures linked { IsLinked self.now.links }
    {
        self.graph.view()
    }

    /// The slots of the modules, in trace order.
    pub(crate) fn slots(&self) -> &[Slot]
        ensures slots { result.now ≡ self.now.links.slots }
        ensures live { All (IsLive self.now.links.graph) self.now.links.slots }
    {
        self.graph.slots()
    }
}

// Shows the trace for which a plan was made.
fn show(graph: &mut ShownGraph, plan: Plan)
    requires { IsPlan graph.old plan }
    ensures shown { IsNextShown graph.old plan graph.new }
    ensures places { NoMorePlaces graph.old graph.new }
{
    graph.commit(plan);
    // What is known of a graph is known where it is looked at.
    let _view = graph.view();
}
