ghost use Rattle.std.specs.Prelude.{◌≡◌, ◌≤◌, ◌<◌, All, IfOk, length, map, reverse, vec_len};
ghost use Rattle.tree_spec.specs.declared.LimitName.TheVariants.{Modules};
ghost use Rattle.tree_spec.specs.Limits.{limit_number};
ghost use Rattle.module_graph.specs.Modules.{IsModule};
ghost use Rattle.module_graph.specs.Many.{requests_in, slot_in};
ghost use Rattle.trace_graph.specs.Building.{AreLinked};

use module_graph::{Graph, Module, Slot};
use shared_types::Memory;
use std::alloc::Global;

// A graph of modules, of which the last comes first, and their slots in trace order; their requests lead to the modules
// at these places.
pub(crate) fn linked(
    alloc: Global,
    modules: Vec<Module>,
    leads: &[usize],
) -> Result<(Graph, Vec<Slot>), Memory>
    requires well_made { All IsModule modules.items }
    requires few { vec_len modules ≤ limit_number Modules }
    requires each { length leads.now ≡ requests_in (reverse modules.items) }
    requires within { All (λ lead. lead < vec_len modules) leads.now }
    ensures { IfOk result (λ built. AreLinked built.0 built.1.items (reverse modules.items) leads.now) }
{
    let count = modules.len();
    let mut graph = Graph::new(alloc);
    graph.reserve(count as u32)?;
    let mut slots = Vec::with_capacity(alloc, count)?;
    graph.add_all(modules, &mut slots);
    graph.connect_all(&slots, leads);
    Ok((graph, slots))
}

// The slots at these places.
pub(crate) fn slots_at(alloc: Global, slots: &[Slot], places: &[usize]) -> Result<Vec<Slot>, Memory>
    requires { All (λ place. place < length slots.now) places.now }
    ensures { IfOk result (λ found. found.items ≡ map (slot_in slots.now) places.now) }
{
    let mut found = Vec::with_capacity(alloc, places.len())?;
    let mut rest = places;
    while let Some((place, more)) = rest.split_first() {
        found.push_reserved(slot_at(slots, *place));
        rest = more;
    }
    Ok(found)
}

fn slot_at(slots: &[Slot], place: usize) -> Slot
    requires { place < length slots.now }
    ensures { result ≡ slot_in slots.now place }
{
    slots[place]
}
