ghost use Rattle.std.specs.Prelude.{◌≡◌, OnOk, IfOk, reverse};
ghost use Rattle.fewest_spec.specs.Choosing.{Wish, chosen, no_weight};
ghost use Rattle.layout.specs.Choices as definition;
ghost use Rattle.layout.specs.Choices.{IsLaid, IsLaidAt, IsAskedFor};
ghost use Rattle.layout.specs.Laid.{laid_map};
ghost use Rattle.layout.specs.Settled.{settled_rows};
ghost use Rattle.place_nodes.specs.Nodes.{AreNodes, places_of};

use crate::laid::Laid;
use crate::penalty::Penalties;
use place_nodes::{Node, node_at};
use shared_types::{Memory, Text};
use std::alloc::Global;

/// Lays what is chosen for a specifier, by the penalties of its places, of which the last one's stand first.
pub(crate) fn choose(
    alloc: Global,
    laid: &mut Laid,
    asked: &Text,
    targets: &[Text],
    own: usize,
    nodes: &[Node],
    rows: Vec<Penalties>,
) -> Result<(), Memory>
    ensures { OnOk result ((wish : Wish) → IsAskedFor wish asked.now targets.now own → AreNodes wish nodes.now
        → rows.items ≡ reverse (settled_rows wish (places_of nodes.now))
        → IsLaid (laid_map laid.old) asked.now (chosen wish (reverse (places_of nodes.now)) no_weight)
        (laid_map laid.new)) }
{
    let mut values = Vec::new(alloc);
    let mut left = rows;
    while let Some(row) = left.pop() {
        let Some(node) = node_at(nodes, values.len()) else {
            break;
        };
        let from = number_from(values.as_slice(), node.above, own);
        let choice = row.choice_at(from);
        let value = lay_at(alloc, laid, asked, targets, &node.place, choice, from)?;
        values.push(value)?;
    }
    Ok(())
}

fn number_from(values: &[usize], above: Option<usize>, own: usize) -> usize
    ensures { result ≡ definition.number_from values.now above own }
{
    match above {
        None => own,
        Some(above) => match values.get(above) {
            None => own,
            Some(value) => *value,
        },
    }
}

fn lay_at(
    alloc: Global,
    laid: &mut Laid,
    asked: &Text,
    targets: &[Text],
    place: &Text,
    choice: Option<usize>,
    from: usize,
) -> Result<usize, Memory>
    ensures { IfOk result (λ value. IsLaidAt choice targets.now from place.now asked.now
        (laid_map laid.old) (laid_map laid.new) value) }
{
    let Some(value) = choice else {
        return Ok(from);
    };
    let Some(target) = targets.get(value) else {
        return Ok(from);
    };
    laid.put(alloc, place.as_str(), asked, target)?;
    Ok(value)
}
