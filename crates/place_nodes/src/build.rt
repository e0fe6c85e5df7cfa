ghost use Rattle.std.specs.Prelude.{◌≡◌, ◌≤◌, ◌↔◌, IsTrue, [], Some, OnOk, IfOk, MatchOption, Contains, slice_get, option_copied, length};
ghost use Rattle.layout_spec.specs.declared.Need.{Need};
ghost use Rattle.place_nodes.specs.Building as definition;
ghost use Rattle.place_nodes.specs.Rows.{IsNumberOf};
ghost use Rattle.place_nodes.specs.Building.{InTurn, IsBuilt, CanAdd, IsRowAdded, IsOver, AreOver};

use crate::nodes::{Node, add_places};
use crate::rows::Row;
use layout_spec::Need;
use shared_types::{Memory, Text};
use std::alloc::Global;
use tree_spec::MOST_CHOICES;

/// The places of needs for one specifier, whose referrers stand in the order of their bytes; None where these are too
/// many for this number of targets.
pub fn nodes_of(
    alloc: Global,
    rows: &[Row],
    targets: &[Text],
    width: usize,
) -> Result<Option<Vec<Node>>, Memory>
    requires turn { InTurn rows.now }
    requires there { (need : Need) → Contains rows.now need → Contains targets.now need.target }
    ensures { IfOk result (λ found. MatchOption found (AreOver rows.now width)
        (λ nodes. IsBuilt rows.now targets.now nodes.items × (IsOver (length nodes.items) width → ⊥))) }
{
    let mut nodes = Vec::new(alloc);
    let mut last = None;
    let mut left = rows;
    while let Some((row, more)) = left.split_first() {
        add_row(alloc, &mut nodes, last, row, targets)?;
        if is_over(nodes.len(), width) {
            return Ok(None);
        }
        last = Some(row);
        left = more;
    }
    Ok(Some(nodes))
}

// Whether so many places with so many targets are too many choices.
fn is_over(places: usize, targets: usize) -> bool
    ensures { IsTrue result ↔ IsOver places targets }
{
    match places.checked_mul(targets) {
        None => true,
        Some(choices) => choices > MOST_CHOICES,
    }
}

fn add_row(
    alloc: Global,
    nodes: &mut Vec<Node>,
    last: Option<&Row>,
    row: &Row,
    targets: &[Text],
) -> Result<(), Memory>
    requires { CanAdd targets.now nodes.old.items (option_copied last) row.now }
    ensures { OnOk result (IsRowAdded targets.now nodes.old.items (option_copied last.entry) row.now nodes.new.items) }
{
    let need = row.need();
    let Some(own) = number_of(targets, &need.target) else {
        return Ok(());
    };
    match last {
        None => add_places(alloc, nodes, need.referrer.as_str(), 0, own),
        Some(last) => add_behind(alloc, nodes, last.need(), need, targets, own),
    }
}

// Of a referrer behind another the places that it has in common with that are known.
fn add_behind(
    alloc: Global,
    nodes: &mut Vec<Node>,
    last: &Need,
    need: &Need,
    targets: &[Text],
    own: usize,
) -> Result<(), Memory>
    requires can { CanAdd targets.now nodes.old.items (Some last.now) need.now }
    requires own { slice_get targets.now own ≡ Some need.now.target }
    ensures { OnOk result (IsRowAdded targets.now nodes.old.items (Some last.now) need.now nodes.new.items) }
{
    if last.referrer == need.referrer {
        return Ok(());
    }
    let from = common(
        last.referrer.as_str().as_bytes(),
        need.referrer.as_str().as_bytes(),
    ) + 1;
    add_places(alloc, nodes, need.referrer.as_str(), from, own)
}

/// How many bytes two texts have in common from the front on.
fn common(one: &[u8], other: &[u8]) -> usize
    ensures count { result ≡ definition.common one.now other.now }
    ensures within { result ≤ length one.now }
{
    let mut count = 0;
    let mut left = one;
    let mut right = other;
    while let Some((b, rest)) = left.split_first() {
        let Some((c, more)) = right.split_first() else {
            return count;
        };
        if *b != *c {
            return count;
        }
        count += 1;
        left = rest;
        right = more;
    }
    count
}

/// The number of a text in a list.
pub fn number_of(texts: &[Text], text: &Text) -> Option<usize>
    ensures { IsNumberOf texts.now text.now result }
{
    let mut number = 0;
    let mut left = texts;
    while let Some((first, more)) = left.split_first() {
        if *first == *text {
            return Some(number);
        }
        number += 1;
        left = more;
    }
    None
}
