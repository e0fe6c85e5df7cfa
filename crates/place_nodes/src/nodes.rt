ghost use Rattle.std.specs.Prelude.{◌≡◌, ◌≢◌, ◌↔◌, ◌++◌, List, ℕ, ◌≤◌, ◌<◌, take, length, Some, None, OnOk, MatchOption, slice_get, option_copied, IfOk, IsTrue, Contains};
ghost use Rattle.layout_spec.specs.Places.{above};
ghost use Rattle.place_nodes.specs.Growing.{IsReady, IsAdded, IsGrown};
ghost use Rattle.place_nodes.specs.Known.{AreKnown};
ghost use Rattle.place_nodes.specs.Nodes.{IsAbove, places_of};

use scope_builder::is_folder;
use shared_types::{Memory, Text};
use std::alloc::Global;

/// A place of the needs for one specifier.
#[derive(Drop)]
pub struct Node {
    pub place: Text,
    /// The number of the place above it.
    pub above: Option<usize>,
    /// The number of the target that the need of this referrer has.
    pub own: Option<usize>,
}

/// The node with this number.
pub fn node_at(nodes: &[Node], number: usize) -> Option<&Node>
    ensures { option_copied result ≡ slice_get nodes.now number }
{
    nodes.get(number)
}

/// The number of the place above another, which comes behind all of them.
///
/// From the last place on, each that isn't above it is passed over with all between it and the one above it.
pub(crate) fn above_of(alloc: Global, nodes: &[Node], place: &str) -> Result<Option<usize>, Memory>
    requires { AreKnown nodes.now place.now }
    ensures { IfOk result (IsAbove (places_of nodes.now) place.now) }
{
    let mut next = nodes.len().checked_sub(1);
    while let Some(number) = next {
        let Some(node) = node_at(nodes, number) else {
            break;
        };
        if is_above(alloc, node, place)? {
            return Ok(Some(number));
        }
        next = node.above;
    }
    Ok(None)
}

/// Whether a node's place is one above another place. Where it has no target of its own it is known to be a folder or
/// the top level.
fn is_above(alloc: Global, node: &Node, place: &str) -> Result<bool, Memory>
    requires { node.now.own ≡ None → (text : List ℕ) × Contains (above text) node.now.place }
    ensures { IfOk result (λ is. IsTrue is ↔ Contains (above place.now) node.now.place) }
{
    let higher = node.place.as_str();
    let Some(rest) = rest_of(higher, place) else {
        return Ok(false);
    };
    if rest.is_empty() {
        return Ok(false);
    }
    if node.own.is_none() {
        return Ok(true);
    }
    if higher.is_empty() {
        return Ok(true);
    }
    is_folder(alloc, higher)
}

// What follows a front of a text.
fn rest_of<'a>(front: &str, text: &'a str) -> Option<&'a str>
    ensures { MatchOption result ((rest : List ℕ) → text.now ≢ front.now ++ rest)
        (λ rest. text.now ≡ front.now ++ rest.now) }
{
    text.strip_prefix(front)
}

/// Adds the places of a referrer that have this size at least; the others are known.
pub(crate) fn add_places(
    alloc: Global,
    nodes: &mut Vec<Node>,
    referrer: &str,
    from: usize,
    own: usize,
) -> Result<(), Memory>
    requires ready { IsReady nodes.old.items referrer.now from }
    requires within { from ≤ length referrer.now }
    ensures { OnOk result (IsGrown nodes.old.items referrer.now own nodes.new.items) }
{
    let mut size = from;
    while size < referrer.len() {
        add_front(alloc, nodes, referrer, size)?;
        size += 1;
    }
    add_node(alloc, nodes, referrer, Some(own))
}

// The front of this size is added, if it is above the referrer.
fn add_front(
    alloc: Global,
    nodes: &mut Vec<Node>,
    referrer: &str,
    size: usize,
) -> Result<(), Memory>
    requires ready { IsReady nodes.old.items referrer.now size }
    requires within { size < length referrer.now }
    ensures added { OnOk result (Contains (above referrer.now) (take size referrer.now)
        → IsAdded nodes.old.items (take size referrer.now) None nodes.new.items) }
    ensures skipped { OnOk result ((Contains (above referrer.now) (take size referrer.now) → ⊥)
        → nodes.new.items ≡ nodes.old.items) }
{
    match place_of(alloc, referrer, size)? {
        None => Ok(()),
        Some(front) => add_node(alloc, nodes, front, None),
    }
}

fn add_node(
    alloc: Global,
    nodes: &mut Vec<Node>,
    place: &str,
    own: Option<usize>,
) -> Result<(), Memory>
    requires { AreKnown nodes.old.items place.now }
    ensures { OnOk result (IsAdded nodes.old.items place.now own nodes.new.items) }
{
    let above = above_of(alloc, nodes.as_slice(), place)?;
    let place = Text::of(alloc, place)?;
    nodes.push(Node { place, above, own })?;
    Ok(())
}

// The front of this size, where it is a place above the referrer.
fn place_of<'a>(alloc: Global, referrer: &'a str, size: usize) -> Result<Option<&'a str>, Memory>
    requires { size < length referrer.now }
    ensures { IfOk result (λ found. MatchOption found (Contains (above referrer.now) (take size referrer.now) → ⊥)
        (λ front. (front.now ≡ take size referrer.now) × Contains (above referrer.now) (take size referrer.now))) }
{
    if size == 0 {
        return Ok(Some(""));
    }
    if referrer.as_bytes()[size - 1] != b'/' {
        return Ok(None);
    }
    let front = &referrer[..size];
    if is_folder(alloc, front)? {
        return Ok(Some(front));
    }
    Ok(None)
}
