ghost use Rattle.std.specs.Prelude.{◌≡◌, ◌≤◌, ◌<◌, [], length, slice_get, Some, IfOk, OnOk, MatchOption, IsTrue};
ghost use Rattle.chain_search.specs.Searches.{FirstGoal, NoGoal};
ghost use Rattle.chain_search.specs.Laws.{is_goal};
ghost use Rattle.chain_why.specs.Shown.{AreSet, is_at, stands_at};
ghost use Rattle.chain_why.specs.Askers.{asks, IsWhole};
ghost use Rattle.chain_why.specs.Reaching.{Expands, IsSearched};

use crate::asker::{Asker, asker_at};
use crate::reached::Reached;
use indexmap::IndexSet;
use module_graph::{Slot, View};
use shared_types::Memory;
use tree_model::Path;

/// The first request that leads to a module at the path, asker by asker in the order in which they are reached; as what
/// it would reach. The modules that are reached before it are kept in this order, which is the queue too.
pub(crate) fn find(
    view: &View<'_>,
    roots: &[Slot],
    path: &Path,
    reached: &mut IndexSet<Reached>,
) -> Result<Option<Reached>, Memory>
    requires set { AreSet view.now }
    requires none { reached.old.keys ≡ [] }
    ensures { IfOk result (IsSearched view.now roots.now path.now reached.new.keys) }
{
    let mut place = 0;
    while place <= reached.len() {
        let asker = asker_at(view, roots, reached, place);
        if let Some((number, slot)) = first_goal(view, &asker, path) {
            return Ok(Some(Reached {
                slot,
                from: place,
                number,
            }));
        }
        expand(reached, place, &asker)?;
        place += 1;
    }
    Ok(None)
}

// The number of the first request that leads to a module at the path, with the module's slot.
fn first_goal(view: &View<'_>, asker: &Asker<'_, '_>, path: &Path) -> Option<(usize, Slot)>
    requires { IsWhole asker.now }
    ensures { MatchOption result (NoGoal (is_goal (is_at view.now path.now)) (asks asker.now))
        (λ found. FirstGoal (is_goal (is_at view.now path.now)) (asks asker.now) found.0
        × (slice_get (asks asker.now) found.0 ≡ Some found.1)) }
{
    let mut number = 0;
    while number < asker.len() {
        let slot = asker.target(number).unwrap();
        if stands_there(view, slot, path) {
            return Some((number, slot));
        }
        number += 1;
    }
    None
}

// Whether the module under a slot stands at the path.
fn stands_there(view: &View<'_>, slot: Slot, path: &Path) -> bool
    ensures { result ≡ is_goal (is_at view.now path.now) slot }
{
    match view.module(slot) {
        Some(module) => module.path() == path,
        None => false,
    }
}

// Adds the modules that the requests of the asker at this place lead to and that weren't reached.
fn expand(reached: &mut IndexSet<Reached>, from: usize, asker: &Asker<'_, '_>) -> Result<(), Memory>
    requires { IsWhole asker.now }
    ensures { OnOk result (Expands reached.old.keys from (asks asker.now) reached.new.keys) }
{
    let mut number = 0;
    while number < asker.len() {
        let slot = asker.target(number).unwrap();
        reached.insert(Reached { slot, from, number })?;
        number += 1;
    }
    Ok(())
}
