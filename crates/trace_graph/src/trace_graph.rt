ghost use Rattle.std.specs.Prelude.{◌≡◌, ◌≤◌, ◌+◌, ◌<◌, All, IfOk, IfSome, length, map, option_map, reverse, slice_get};
ghost use Rattle.std.specs.Prelude.{take, drop, vec_len};
ghost use Rattle.tree_spec.specs.declared.LimitName.TheVariants.{Modules};
ghost use Rattle.tree_spec.specs.Limits.{limit_number};
ghost use Rattle.module_graph.specs.Graphs.{AreModules};
ghost use Rattle.module_graph.specs.Modules.{IsModule};
ghost use Rattle.module_graph.specs.Many.{requests_in};
ghost use Rattle.trace_graph.specs.Links.{IsLinked, IsLive, module_of, source_of, modules_of, sources_of};
ghost use Rattle.trace_graph.specs.Building.{IsGraphOf};

use crate::building::{linked, slots_at};
use module_graph::{Graph, Module, ModuleView, Slot, View};
use shared_types::Memory;
use std::alloc::Global;
use std::marker::Model;

/// The modules of a trace under slots. The targets of their requests, and those of the entries, are slots of modules.
#[derive(Drop)]
pub struct TraceGraph {
    graph: Graph,
    slots: Vec<Slot>,
    roots: Vec<Slot>,
}

impl Model for TraceGraph {
    ghost use Rattle.trace_graph.specs.Links.{Links, IsLinked};

    ghost Value = { Links };

    ghost view = { λ t. record { graph = t.graph; slots = t.slots.items; roots = t.roots.items } };

    ghost invariant = { λ t. IsLinked (record { graph = t.graph; slots = t.slots.items; roots = t.roots.items }) };
}

impl TraceGraph {
    /// The graph of modules, of which the last comes first. Each request leads to a module by its place in trace order:
    /// the entries do, and behind them the requests of the modules.
    pub fn of(
        alloc: Global,
        modules: Vec<Module>,
        leads: &[usize],
        entries: usize,
    ) -> Result<TraceGraph, Memory>
        requires well_made { All IsModule modules.items }
        requires few { vec_len modules ≤ limit_number Modules }
        requires each { length leads.now ≡ entries + requests_in (reverse modules.items) }
        requires within { All (λ lead. lead < vec_len modules) leads.now }
        ensures graph { IfOk result (IsGraphOf (reverse modules.items) leads.now) }
        ensures entries { IfOk result (λ links. length links.roots ≡ entries) }
    {
        let (firsts, others) = leads.split_at(entries);
        let (graph, slots) = linked(alloc, modules, others)?;
        let roots = slots_at(alloc, &slots, firsts)?;
        Ok(TraceGraph {
            graph,
            slots,
            roots,
        })
    }

    /// The graph, to be looked at.
    pub fn view(&self) -> View<'_>
        ensures graph { result ≡ self.now.graph }
        ensures linked { IsLinked self.now }
        ensures modules { AreModules self.now.graph }
    {
        self.graph.view()
    }

    /// The slot of the module with this number in trace order, counted from 0.
    pub fn slot(&self, place: usize) -> Option<Slot>
        ensures slot { result ≡ slice_get self.now.slots place }
        ensures live { IfSome result (IsLive self.now.graph) }
    {
        slot_in(&self.slots, place)
    }

    /// The slots of the modules, in trace order.
    pub fn slots(&self) -> &[Slot]
        ensures slots { result.now ≡ self.now.slots }
        ensures linked { IsLinked self.now }
    {
        self.slots.as_slice()
    }

    /// The slot of the module to which the entry with this number leads, counted from 0.
    pub fn root(&self, entry: usize) -> Option<Slot>
        ensures slot { result ≡ slice_get self.now.roots entry }
        ensures live { IfSome result (IsLive self.now.graph) }
    {
        slot_in(&self.roots, entry)
    }

    /// The slots of the modules to which the entries lead.
    pub fn roots(&self) -> &[Slot]
        ensures { result.now ≡ self.now.roots }
    {
        self.roots.as_slice()
    }

    /// The number of modules.
    pub fn len(&self) -> usize
        ensures { result ≡ length self.now.slots }
    {
        self.slots.as_slice().len()
    }

    /// The module with this number in trace order, counted from 0.
    pub fn module(&self, place: usize) -> Option<ModuleView<'_>>
        ensures module { option_map module_of result ≡ slice_get (modules_of self.now) place }
        ensures source { option_map source_of result ≡ slice_get (sources_of self.now) place }
    {
        match slot_in(&self.slots, place) {
            Some(slot) => self.graph.view().module(slot),
            None => None,
        }
    }
}

fn slot_in(slots: &Vec<Slot>, place: usize) -> Option<Slot>
    ensures { result ≡ slice_get slots.now.items place }
{
    match slots.get(place) {
        Some(slot) => Some(*slot),
        None => None,
    }
}
