ghost use Rattle.std.specs.Prelude.{◌≡◌, ◌<◌, ◌≤◌, ◌++◌, ◌∷◌, [], ℕ, List, Option, Some, None, All, IfOk, OnOk, length, map, slice_get, slice_set, if◌then◌else◌};
ghost use Rattle.std.specs.HashMap as map;
ghost use Rattle.tree_spec.specs.declared.LimitName.TheVariants.{Modules};
ghost use Rattle.tree_spec.specs.Limits.{limit_number};
ghost use Rattle.slot_arena.specs.Slots.{value_at};
ghost use Rattle.slot_arena.specs.declared.slot.Slot as declared;
ghost use Rattle.module_graph.specs.declared.module.Module as vertex;
ghost use Rattle.module_graph.specs.Modules.{set_one};
ghost use Rattle.module_graph.specs.Many.{AreApart};
ghost use Rattle.trace_spec.specs.Modules.{Module, is_module};
ghost use Rattle.trace_graph.specs.Links.{Links, IsLive, module_of};
ghost use Rattle.graph_repair.specs.Matching.{somes, missing};
ghost use Rattle.graph_repair.specs.Finding.{AreByKey, Takes, Keeps, IsFound};

use crate::key::ModuleKey;
use crate::likeness::is_like_at;
use crate::parts::slot_at;
use module_graph::{ModuleView, Slot, View};
use shared_types::Memory;
use std::alloc::Global;
use std::collections::HashMap;
use trace_graph::TraceGraph;

/// What of a graph is found in a trace: to each place of the trace the slot of the module that is kept there, if there
/// is one; and to each place of the graph its slot, unless that is kept.
#[derive(Drop)]
pub(crate) struct Found {
    pub(crate) keeps: Vec<Option<Slot>>,
    pub(crate) left: Vec<Option<Slot>>,
}

/// Finds the modules of a trace among those under these slots.
pub(crate) fn find_kept(
    alloc: Global,
    shown: &View<'_>,
    own: &[Slot],
    trace: &TraceGraph,
) -> Result<Found, Memory>
    requires apart { AreApart own.now }
    requires live { All (IsLive shown.now) own.now }
    ensures { IfOk result (λ found. IsFound shown.now own.now trace.now.graph trace.now.slots found.left.items
        found.keeps.items) }
{
    let table = table_of(alloc, shown, own)?;
    let mut left = all_left(alloc, own)?;
    let view = trace.view();
    let slots = trace.slots();
    let mut keeps = Vec::new(alloc);
    let mut place = slots.len();
    while place > 0 {
        place -= 1;
        keeps.push(keep(
            alloc,
            shown,
            &table,
            &mut left,
            &view,
            slot_at(slots, place),
        )?)?;
    }
    keeps.reverse();
    Ok(Found { keeps, left })
}

// To the path and the suffix of each module its place among these slots.
fn table_of(
    alloc: Global,
    shown: &View<'_>,
    own: &[Slot],
) -> Result<HashMap<ModuleKey, usize>, Memory>
    requires { All (IsLive shown.now) own.now }
    ensures { IfOk result (λ table. AreByKey shown.now own.now (map.get is_module table)) }
{
    let mut table = HashMap::new(alloc);
    let mut place = 0;
    while place < own.len() {
        put_key(alloc, shown, &mut table, slot_at(own, place), place)?;
        place += 1;
    }
    Ok(table)
}

// Puts the path and the suffix of the module under a slot into the table, with its place.
fn put_key(
    alloc: Global,
    shown: &View<'_>,
    table: &mut HashMap<ModuleKey, usize>,
    slot: Slot,
    place: usize,
) -> Result<(), Memory>
    ensures { OnOk result ((v : vertex.Module) → value_at shown.now slot ≡ Some v → (m : Module)
        → map.get is_module table.new m
        ≡ (if is_module (module_of v) m then Some place else map.get is_module table.old m)) }
{
    match shown.module(slot) {
        Some(module) => insert(table, ModuleKey::of(alloc, &module)?, place),
        None => Ok(()),
    }
}

fn insert(table: &mut HashMap<ModuleKey, usize>, key: ModuleKey, place: usize) -> Result<(), Memory>
    ensures { OnOk result ((m : Module) → map.get is_module table.new m
        ≡ (if is_module key m then Some place else map.get is_module table.old m)) }
{
    table.insert(key, place)?;
    Ok(())
}

// Each of these slots.
fn all_left(alloc: Global, own: &[Slot]) -> Result<Vec<Option<Slot>>, Memory>
    ensures { IfOk result (λ left. left.items ≡ map Some own.now) }
{
    let mut left = Vec::new(alloc);
    for slot in own {
        left.push(Some(*slot))?;
    }
    Ok(left)
}

// The slot that is kept for the module of a trace under a slot, taken out of those that are left.
fn keep(
    alloc: Global,
    shown: &View<'_>,
    table: &HashMap<ModuleKey, usize>,
    left: &mut Vec<Option<Slot>>,
    view: &View<'_>,
    slot: Slot,
) -> Result<Option<Slot>, Memory>
    ensures { IfOk result (λ kept. Keeps shown.now (map.get is_module table.now) (value_at view.now slot)
        left.old.items left.new.items kept) }
{
    match view.module(slot) {
        Some(module) => keep_module(alloc, shown, table, left, &module),
        None => Ok(None),
    }
}

fn keep_module(
    alloc: Global,
    shown: &View<'_>,
    table: &HashMap<ModuleKey, usize>,
    left: &mut Vec<Option<Slot>>,
    module: &ModuleView<'_>,
) -> Result<Option<Slot>, Memory>
    ensures { IfOk result (λ kept. Keeps shown.now (map.get is_module table.now) (Some module.now) left.old.items
        left.new.items kept) }
{
    let key = ModuleKey::of(alloc, module)?;
    match place_in(table, &key) {
        Some(place) => Ok(take_like(shown, left, place, module)),
        None => Ok(None),
    }
}

fn place_in(table: &HashMap<ModuleKey, usize>, key: &ModuleKey) -> Option<usize>
    ensures { result ≡ map.get is_module table.now key.now }
{
    match table.get(key) {
        Some(place) => Some(*place),
        None => None,
    }
}

// Takes out the slot at a place, if it is left and its module is like this one.
fn take_like(
    shown: &View<'_>,
    left: &mut Vec<Option<Slot>>,
    place: usize,
    module: &ModuleView<'_>,
) -> Option<Slot>
    ensures { Takes shown.now place (Some module.now) left.old.items left.new.items result }
{
    let slot = left_at(left, place)?;
    if !is_like_at(shown, slot, module) {
        return None;
    }
    left[place] = None;
    Some(slot)
}

fn left_at(left: &Vec<Option<Slot>>, place: usize) -> Option<Slot>
    ensures { result ≡ set_one (slice_get left.now.items place) }
{
    match left.get(place) {
        Some(slot) => *slot,
        None => None,
    }
}

/// The slots that are left.
pub(crate) fn somes_of(alloc: Global, left: &[Option<Slot>]) -> Result<Vec<Slot>, Memory>
    ensures { IfOk result (λ gone. gone.items ≡ somes left.now) }
{
    let mut gone = Vec::new(alloc);
    let mut rest = left;
    while let Some((slot, more)) = rest.split_first() {
        push_some(&mut gone, *slot)?;
        rest = more;
    }
    Ok(gone)
}

fn push_some(gone: &mut Vec<Slot>, slot: Option<Slot>) -> Result<(), Memory>
    ensures { OnOk result (gone.new.items ≡ gone.old.items ++ somes (slot ∷ [])) }
{
    match slot {
        Some(slot) => {
            gone.push(slot)?;
            Ok(())
        }
        None => Ok(()),
    }
}

/// At how many places none is kept.
pub(crate) fn missing_in(keeps: &[Option<Slot>]) -> usize
    requires { length keeps.now ≤ limit_number Modules }
    ensures { result ≡ missing keeps.now }
{
    let mut count = 0;
    let mut rest = keeps;
    while let Some((keep, more)) = rest.split_first() {
        count += one_if_none(*keep);
        rest = more;
    }
    count
}

fn one_if_none(keep: Option<Slot>) -> usize
    ensures { result ≡ missing (keep ∷ []) }
{
    match keep {
        Some(_) => 0,
        None => 1,
    }
}
