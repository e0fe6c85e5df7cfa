ghost use Rattle.std.specs.Prelude.{◌≡◌, ◌<◌, ◌≤◌, ◌∷◌, [], IfOk, OnOk, List, Option, length, reverse, slice_get, Some};
ghost use Rattle.slot_arena.specs.Slots.{value_at};
ghost use Rattle.slot_arena.specs.declared.slot.Slot as declared;
ghost use Rattle.module_graph.specs.Graphs.{AreModules};
ghost use Rattle.trace_graph.specs.Links.{IsLinked, IsLive};
ghost use Rattle.graph_repair.specs.Plans.{AreAdded, AddsOne, HasRoom};
ghost use Rattle.graph_repair.specs.Leads.{AreInTheirPlaces};

use crate::leads::leads_of;
use module_graph::{Graph, Module, Slot, View};
use shared_types::Memory;
use std::alloc::Global;
use trace_graph::TraceGraph;

/// What a repair of a graph does, with all the memory for it. It is of use with the graph that it was made for alone.
#[derive(Drop)]
pub struct Plan {
    // A new graph, where no slot of the old one is kept.
    pub(crate) begun: Option<Graph>,
    pub(crate) parts: Parts,
}

/// The slots of the modules that are gone; to each place of the trace the slot that is kept, if there is one; the
/// modules that are added, the last one first; and where the requests lead. The other lists are to be filled.
#[derive(Drop)]
pub(crate) struct Parts {
    pub(crate) gone: Vec<Slot>,
    pub(crate) keeps: Vec<Option<Slot>>,
    pub(crate) added: Vec<Module>,
    pub(crate) leads: Vec<usize>,
    pub(crate) given: Vec<Slot>,
    pub(crate) slots: Vec<Slot>,
}

/// The parts for a trace, of which these are kept, and these are gone.
pub(crate) fn parts_of(
    alloc: Global,
    gone: Vec<Slot>,
    keeps: Vec<Option<Slot>>,
    trace: &TraceGraph,
) -> Result<Parts, Memory>
    requires { length keeps.items ≡ length trace.now.slots }
    ensures gone { IfOk result (λ parts. parts.gone.items ≡ gone.items) }
    ensures keeps { IfOk result (λ parts. parts.keeps.items ≡ keeps.items) }
    ensures added { IfOk result (λ parts. AreAdded trace.now.graph keeps.items trace.now.slots
        (reverse parts.added.items)) }
    ensures leads { IfOk result (λ parts. AreInTheirPlaces trace.now parts.leads.items) }
    ensures room { IfOk result HasRoom }
    ensures modules { AreModules trace.now.graph }
    ensures linked { IsLinked trace.now }
{
    // What is known of a graph is known where it is looked at.
    let _view = trace.view();
    let added = added_of(alloc, &keeps, trace)?;
    let leads = leads_of(alloc, trace)?;
    let given = Vec::with_capacity(alloc, added.len())?;
    let slots = Vec::with_capacity(alloc, keeps.len())?;
    Ok(Parts {
        gone,
        keeps,
        added,
        leads,
        given,
        slots,
    })
}

// The modules at the places at which none is kept, the last one first.
fn added_of(
    alloc: Global,
    keeps: &[Option<Slot>],
    trace: &TraceGraph,
) -> Result<Vec<Module>, Memory>
    requires { length keeps.now ≡ length trace.now.slots }
    ensures { IfOk result (λ added. AreAdded trace.now.graph keeps.now trace.now.slots (reverse added.items)) }
{
    let view = trace.view();
    let slots = trace.slots();
    let mut added = Vec::new(alloc);
    let mut place = keeps.len();
    while place > 0 {
        place -= 1;
        add_missing(
            alloc,
            &view,
            keep_at(keeps, place),
            slot_at(slots, place),
            &mut added,
        )?;
    }
    Ok(added)
}

fn keep_at(keeps: &[Option<Slot>], place: usize) -> Option<Slot>
    requires { place < length keeps.now }
    ensures { slice_get keeps.now place ≡ Some result }
{
    keeps[place]
}

/// The slot at a place.
pub(crate) fn slot_at(slots: &[Slot], place: usize) -> Slot
    requires { place < length slots.now }
    ensures { slice_get slots.now place ≡ Some result }
{
    slots[place]
}

// Puts the module under a slot behind the others, unless one is kept at its place.
fn add_missing(
    alloc: Global,
    view: &View<'_>,
    keep: Option<Slot>,
    slot: Slot,
    added: &mut Vec<Module>,
) -> Result<(), Memory>
    requires { IsLive view.now slot }
    ensures { OnOk result (AddsOne view.now keep slot (reverse added.old.items) (reverse added.new.items)) }
{
    match keep {
        Some(_) => Ok(()),
        None => match view.module(slot) {
            Some(module) => {
                added.push(module.untied(alloc)?)?;
                Ok(())
            }
            None => Ok(()),
        },
    }
}
