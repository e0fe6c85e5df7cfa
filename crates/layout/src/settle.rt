ghost use Rattle.std.specs.Prelude.{◌≡◌, ℕ, IfOk, OnOk, length, reverse, replicate};
ghost use Rattle.fewest_spec.specs.Choosing.{Wish};
ghost use Rattle.layout.specs.Costs.{IsCharged};
ghost use Rattle.layout.specs.Settled.{settled_rows};
ghost use Rattle.place_nodes.specs.Nodes.{AreNodes, places_of};

use crate::costs::Costs;
use crate::penalty::Penalties;
use place_nodes::{Node, node_at};
use shared_types::Memory;
use std::alloc::Global;

/// The penalties of each place, the last place's first. Each is settled after all that are below it.
pub(crate) fn settled(alloc: Global, nodes: &[Node], width: usize) -> Result<Vec<Penalties>, Memory>
    ensures { IfOk result (λ rows. (wish : Wish) → AreNodes wish nodes.now → length wish.targets ≡ width
        → rows.items ≡ reverse (settled_rows wish (places_of nodes.now))) }
{
    let mut rows = Vec::with_capacity(alloc, nodes.len())?;
    let mut open = nothing(alloc, nodes.len(), width)?;
    while let Some(costs) = open.pop() {
        let Some(node) = node_at(nodes, open.len()) else {
            break;
        };
        let row = costs.penalties(alloc, node.own)?;
        charge(alloc, &mut open, node.above, &row)?;
        rows.push(row)?;
    }
    Ok(rows)
}

// Rows in which no target costs anything.
fn nothing(alloc: Global, count: usize, width: usize) -> Result<Vec<Costs>, Memory>
    ensures { IfOk result (λ rows. rows.items ≡ replicate count (replicate width 0)) }
{
    let mut rows = Vec::with_capacity(alloc, count)?;
    for index in 0..count {
        rows.push(Costs::free(alloc, width))?;
    }
    Ok(rows)
}

// The place above, where there is one, pays for one below it.
fn charge(
    alloc: Global,
    open: &mut Vec<Costs>,
    above: Option<usize>,
    row: &Penalties,
) -> Result<(), Memory>
    ensures { OnOk result (IsCharged open.old.items above row.now open.new.items) }
{
    let Some(number) = above else {
        return Ok(());
    };
    let Some(costs) = open.get_mut(number) else {
        return Ok(());
    };
    costs.charge(alloc, row)
}
