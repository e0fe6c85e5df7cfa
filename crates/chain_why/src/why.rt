ghost use Rattle.std.specs.Prelude.{◌≡◌, ◌≤◌, ◌<◌, length, slice_get, Some, IfOk};
ghost use Rattle.chain_why.specs.Shown.{AreSet};
ghost use Rattle.chain_why.specs.Answers.{Answers};
ghost use Rattle.chain_why.specs.Reaching.{AreInOrder, Traces};

use crate::list::Chain;
use crate::reached::Reached;
use crate::search::find;
use indexmap::IndexSet;
use module_graph::{Slot, View};
use shared_types::Memory;
use std::alloc::Global;
use tree_model::Path;

/// The shortest chain of requests from the page, which asks for these roots, to a module at the path, with any suffix;
/// of the shortest the one whose numbers are least. None where none leads there.
pub fn chain(
    alloc: Global,
    view: View<'_>,
    roots: &[Slot],
    path: &Path,
) -> Result<Option<Chain>, Memory>
    requires { AreSet view }
    ensures { IfOk result (Answers view.entry roots.now path.now) }
{
    let mut reached = IndexSet::new(alloc);
    match find(&view, roots, path, &mut reached)? {
        None => Ok(None),
        Some(goal) => Ok(Some(chain_to(alloc, &reached, goal)?)),
    }
}

// The chain that leads to the goal, from its end back to the page.
fn chain_to(alloc: Global, reached: &IndexSet<Reached>, goal: Reached) -> Result<Chain, Memory>
    requires ordered { AreInOrder reached.now.keys }
    requires within { goal.from ≤ length reached.now.keys }
    ensures { IfOk result (Traces reached.now.keys goal) }
{
    let mut steps = Vec::new(alloc);
    steps.push((goal.number, goal.slot))?;
    let mut from = goal.from;
    while from > 0 {
        let step = step_at(reached, from - 1);
        steps.push((step.number, step.slot))?;
        from = step.from;
    }
    steps.reverse();
    Ok(Chain::from_vec(steps))
}

fn step_at(reached: &IndexSet<Reached>, index: usize) -> Reached
    requires { index < length reached.now.keys }
    ensures { slice_get reached.now.keys index ≡ Some result }
{
    *reached.get_index(index).unwrap()
}
