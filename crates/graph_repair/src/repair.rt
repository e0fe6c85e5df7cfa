ghost use Rattle.std.specs.Prelude.{◌≡◌, ◌≤◌, ◌∷◌, [], List, ℕ, length, vec_len, vec_capacity};
ghost use Rattle.trace_graph.specs.Links.{Links};
ghost use Rattle.graph_repair.specs.Matching.{missing, filled};
ghost use Rattle.graph_repair.specs.Plans.{IsNext, IsReady, IsRepaired, base, shown};

use crate::parts::Parts;
use module_graph::{Graph, Slot};

/// Puts a graph that is begun, if there is one, in the place of another.
pub(crate) fn begin_anew(graph: &mut Graph, begun: Option<Graph>)
    ensures { graph.new ≡ base graph.old begun }
{
    if let Some(new) = begun {
        *graph = new;
    }
}

/// Makes a graph the copy of a trace for which these parts are, and gives its slots in trace order.
pub(crate) fn repair(graph: &mut Graph, parts: Parts) -> Vec<Slot>
    requires { (l : Links) × IsReady graph.old l parts }
    ensures { (l : Links) → IsReady graph.old l parts
        → IsRepaired graph.old l parts (shown graph.new result.items) }
{
    let Parts {
        gone,
        keeps,
        added,
        leads,
        given,
        slots,
    } = parts;
    let mut given = given;
    graph.remove_all(&gone);
    graph.add_all(added, &mut given);
    let slots = filled_in(&keeps, &given, slots);
    graph.connect_all(&slots, &leads);
    slots
}

// The slots that are kept, and at the other places those that are given, in their order.
fn filled_in(keeps: &[Option<Slot>], given: &[Slot], empty: Vec<Slot>) -> Vec<Slot>
    requires none { empty.items ≡ [] }
    requires room { length keeps.now ≤ vec_capacity empty }
    requires enough { missing keeps.now ≡ length given.now }
    ensures { result.items ≡ filled keeps.now given.now }
{
    let mut slots = empty;
    let mut rest = keeps;
    let mut left = given;
    while let Some((keep, more)) = rest.split_first() {
        let (slot, others) = next_slot(*keep, left);
        slots.push_reserved(slot);
        rest = more;
        left = others;
    }
    slots
}

// The slot at a place where this one is kept, if it is one, and the given ones that are left.
fn next_slot<'a>(keep: Option<Slot>, given: &'a [Slot]) -> (Slot, &'a [Slot])
    requires { missing (keep ∷ []) ≤ length given.now }
    ensures { IsNext keep given.now result.0 result.1.now }
{
    match keep {
        Some(slot) => (slot, given),
        None => (given[0], &given[1..]),
    }
}
