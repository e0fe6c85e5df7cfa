//! Which texts of a list another text begins with.
ghost use Rattle.std.specs.Prelude.{◌≡◌, ◌<◌, ◌≤◌, ◌-◌, ℕ, length, IfOk, MatchOption};
ghost use Rattle.std.specs.Ordering.{nat_cmp, is_lt};
ghost use Rattle.std.specs.Cmp.Lexicographic.{slice_cmp};
ghost use Rattle.std.specs.List.Sorted.{IsPermutation};
ghost use Rattle.std.specs.Map.{keys_of};
ghost use Rattle.exports_patterns.specs.Fronts.{StandsAt, IsAscending, IsTop, Covers, LinkedBelow, HasAllLinks};
ghost use Rattle.exports_patterns.specs.Fronts.{text_at};

use crate::parts::begins;
use shared_types::{Bytes, Listed, Memory};
use std::alloc::Global;
use std::marker::Model;

/// Entries in the order of their texts. Those whose text is a front of a text are found from the last one to the
/// first, in one search by halves and a step for each entry whose text begins that of another.
///
/// They are told by one more than their places, so that 0 is none.
#[derive(Drop)]
pub struct Fronts<V> {
    entries: Vec<(Bytes, V)>,
    links: Vec<usize>,
}

impl<V> Model for Fronts<V> {
    ghost use Rattle.std.specs.Prelude.{List, ℕ};
    ghost use Rattle.std.specs.Map.{keys_of};
    ghost use Rattle.exports_patterns.specs.Fronts.{AreFronts};

    ghost Value = { List (List ℕ × V) };

    ghost view = { λ f. f.entries.items };

    ghost invariant = { λ f. AreFronts (keys_of f.entries.items) f.links.items };
}

impl<V: Drop> Fronts<V> {
    /// These entries, in order.
    pub fn of(alloc: Global, entries: Listed<(Bytes, V)>) -> Result<Fronts<V>, Memory>
        ensures { IfOk result (λ fronts. IsPermutation entries fronts) }
    {
        let mut entries = entries.into_vec();
        entries.sort_by(|one, other| one.0.as_bytes().cmp(&other.0.as_bytes()))?;
        let links = linked(alloc, entries.as_slice())?;
        Ok(Fronts { entries, links })
    }
}

impl<V> Fronts<V> {
    /// The last entry whose text is a front of this one.
    pub fn top(&self, text: &[u8]) -> usize
        ensures { IsTop (keys_of self.now) text.now (length self.now) result }
    {
        let entries = self.entries.as_slice();
        let from = entries.partition_point(|entry| !is_below(text, entry.0.as_bytes()));
        climb(entries, self.links.as_slice(), from, text)
    }

    /// The last one before that.
    pub fn next(&self, at: usize, text: &[u8]) -> usize
        requires some { 0 < at }
        requires within { at ≤ length self.now }
        ensures { (most : ℕ) → IsTop (keys_of self.now) text.now most at
            → IsTop (keys_of self.now) text.now (at - 1) result }
    {
        let links = self.links.as_slice();
        climb(self.entries.as_slice(), links, links[at - 1], text)
    }

    /// The entry at a place.
    pub fn at(&self, place: usize) -> Option<(&[u8], &V)>
        ensures { MatchOption result (length self.now ≤ place)
            (λ entry. StandsAt self.now place (entry.0.now, entry.1.now)) }
    {
        match self.entries.as_slice().get(place) {
            None => None,
            Some(entry) => Some((entry.0.as_bytes(), &entry.1)),
        }
    }
}

// For each entry the last one before it whose text is a front of its own.
fn linked<V>(alloc: Global, entries: &[(Bytes, V)]) -> Result<Vec<usize>, Memory>
    requires { IsAscending (keys_of entries.now) }
    ensures { IfOk result (λ links. HasAllLinks (keys_of entries.now) links.items) }
{
    let mut links = Vec::with_capacity(alloc, entries.len())?;
    for at in 0..entries.len() {
        let link = climb(entries, links.as_slice(), at, text_of(entries, at));
        links.push(link)?;
    }
    Ok(links)
}

// The last of the first entries whose text is a front of this one, where each of them is a front of the last.
fn climb<V>(entries: &[(Bytes, V)], links: &[usize], from: usize, text: &[u8]) -> usize
    requires linked { LinkedBelow (keys_of entries.now) links.now (length links.now) }
    requires within { from ≤ length links.now }
    requires listed { length links.now ≤ length entries.now }
    ensures { (most : ℕ) → from ≤ most → Covers (keys_of entries.now) text.now most from
        → IsTop (keys_of entries.now) text.now most result }
{
    let mut at = from;
    while at > 0 {
        if begins(text, text_of(entries, at - 1)) {
            return at;
        }
        at = links[at - 1];
    }
    0
}

fn text_of<V>(entries: &[(Bytes, V)], place: usize) -> &[u8]
    requires { place < length entries.now }
    ensures { result.now ≡ text_at (keys_of entries.now) place }
{
    entries[place].0.as_bytes()
}

fn is_below(text: &[u8], other: &[u8]) -> bool
    ensures { result ≡ is_lt (slice_cmp nat_cmp text.now other.now) }
{
    text.cmp(&other).is_lt()
}
