ghost use Rattle.std.specs.Prelude.{◌≡◌, ◌<◌, ◌≤◌, ◌++◌, All, IfOk, OnOk, length, map, slice_set};
ghost use Rattle.graph_repair.specs.Leads.{place_in, AreInTheirPlaces, AreByPlace, targets_under};

use crate::parts::slot_at;
use module_graph::{ModuleView, Slot, View};
use shared_types::Memory;
use std::alloc::Global;
use trace_graph::TraceGraph;

/// To each request of a trace's modules, in their order, the place of the module to which it leads.
pub(crate) fn leads_of(alloc: Global, trace: &TraceGraph) -> Result<Vec<usize>, Memory>
    ensures { IfOk result (λ leads. AreInTheirPlaces trace.now leads.items) }
{
    let places = places_of(alloc, trace.slots())?;
    let view = trace.view();
    let mut leads = Vec::new(alloc);
    let mut rest = trace.slots();
    while let Some((slot, more)) = rest.split_first() {
        add_leads(&view, &places, *slot, &mut leads)?;
        rest = more;
    }
    Ok(leads)
}

// Puts the places to which the module under a slot leads behind the others.
fn add_leads(
    view: &View<'_>,
    places: &Vec<usize>,
    slot: Slot,
    leads: &mut Vec<usize>,
) -> Result<(), Memory>
    ensures { OnOk result (leads.new.items ≡ leads.old.items
        ++ map (place_in places.now.items) (targets_under view.now slot)) }
{
    match view.module(slot) {
        Some(module) => add_targets(&module, places, leads),
        None => Ok(()),
    }
}

fn add_targets(
    module: &ModuleView<'_>,
    places: &Vec<usize>,
    leads: &mut Vec<usize>,
) -> Result<(), Memory>
    ensures { OnOk result (leads.new.items ≡ leads.old.items
        ++ map (place_in places.now.items) module.now.targets) }
{
    for request in 0..module.requests() {
        leads.push(place_of(places, module.target(request)))?;
    }
    Ok(())
}

// The place of the module that a target names.
fn place_of(places: &Vec<usize>, target: Option<Slot>) -> usize
    ensures { result ≡ place_in places.now.items target }
{
    match target {
        Some(slot) => match places.get(slot.index as usize) {
            Some(place) => *place,
            None => 0,
        },
        None => 0,
    }
}

// To each of these slots its place among them, by its index.
fn places_of(alloc: Global, slots: &[Slot]) -> Result<Vec<usize>, Memory>
    ensures { IfOk result (λ places. AreByPlace slots.now places.items) }
{
    let mut places = Vec::new(alloc);
    places.resize(most_index(slots), 0)?;
    let mut place = 0;
    while place < slots.len() {
        set_place(&mut places, slot_at(slots, place), place);
        place += 1;
    }
    Ok(places)
}

fn set_place(places: &mut Vec<usize>, slot: Slot, place: usize)
    requires { slot.index < length places.old.items }
    ensures { places.new.items ≡ slice_set places.old.items slot.index place }
{
    places[slot.index as usize] = place;
}

// A number above the indexes of these slots.
fn most_index(slots: &[Slot]) -> usize
    ensures { All (λ s. s.index < result) slots.now }
{
    let mut most = 0;
    let mut rest = slots;
    while let Some((slot, more)) = rest.split_first() {
        most = above(most, *slot);
        rest = more;
    }
    most
}

fn above(most: usize, slot: Slot) -> usize
    ensures no_less { most ≤ result }
    ensures above { slot.index < result }
{
    if slot.index as usize >= most {
        return slot.index as usize + 1;
    }
    most
}
