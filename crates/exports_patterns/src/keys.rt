//! The keys of an object of subpaths, in the order in which they are looked for.
ghost use Rattle.std.specs.Prelude.{◌≡◌, ◌≤◌, ◌∷◌, ◌++◌, [], List, ℕ, length, reverse, slice_get};
ghost use Rattle.std.specs.Prelude.{IfOk, OnOk, MatchOption, Some};
ghost use Rattle.std.specs.Ordering.{nat_cmp};
ghost use Rattle.std.specs.Cmp.Lexicographic.{slice_cmp};
ghost use Rattle.std.specs.BTreeMap.{IsOrdered};
ghost use Rattle.ordered_json.specs.Lists.{pairs_of};
ghost use Rattle.ordered_json.specs.Shown.{members_of};
ghost use Rattle.exports_patterns.specs.Found.{keys_of};
ghost use Rattle.exports_patterns.specs.Indexes.{IsIndex, IsKeyIndex};
ghost use Rattle.exports_patterns.specs.Gathering.{HasGathered, HasGrouped, PutsPattern};

use crate::fronts::Fronts;
use crate::parts::{at_star, reversed};
use ordered_json::Members;
use shared_types::{Bytes, Listed, Memory, Text};
use std::alloc::Global;
use std::collections::BTreeMap;

/// How many keys are looked at one after another. More are indexed.
const FEW: usize = 8;

/// The keys of an object, indexed where they are many.
#[derive(Drop)]
pub struct Keys {
    pub(crate) index: Option<KeyIndex>,
}

/// The keys of an object and their places, without those that have more than one star, which match nothing.
#[derive(Drop)]
pub(crate) struct KeyIndex {
    /// The keys without a star.
    pub(crate) exact: Fronts<usize>,
    /// The patterns by what stands before the star, and then by what stands after it, the last byte first.
    pub(crate) patterns: Fronts<Fronts<usize>>,
}

// Patterns with one base: what stands after the star, the last byte first, and the places of the keys.
type Group = Listed<(Bytes, usize)>;

#[derive(Drop)]
pub(crate) struct Gathered {
    exact: Listed<(Bytes, usize)>,
    groups: BTreeMap<Text, Group>,
}

/// The keys of an object.
pub fn keys_in(alloc: Global, members: &Members) -> Result<Keys, Memory>
    ensures { IfOk result (IsIndex (keys_of members.now)) }
{
    if members.len() <= FEW {
        return Ok(Keys { index: None });
    }
    let index = indexed(alloc, members)?;
    Ok(Keys { index: Some(index) })
}

fn indexed(alloc: Global, members: &Members) -> Result<KeyIndex, Memory>
    ensures { IfOk result (IsKeyIndex (keys_of members.now)) }
{
    let Gathered { exact, groups } = gather(alloc, members)?;
    Ok(KeyIndex {
        exact: Fronts::of(alloc, exact)?,
        patterns: Fronts::of(alloc, in_order(alloc, groups)?)?,
    })
}

fn gather(alloc: Global, members: &Members) -> Result<Gathered, Memory>
    ensures { IfOk result (HasGathered (keys_of members.now)) }
{
    let mut gathered = Gathered {
        exact: Listed::new(alloc),
        groups: BTreeMap::new(alloc),
    };
    for index in 0..members.len() {
        let Some(name) = key_at(members, index) else {
            break;
        };
        put_key(alloc, &mut gathered, name, index)?;
    }
    Ok(gathered)
}

/// The key at a place.
pub(crate) fn key_at(keys: &Members, index: usize) -> Option<&str>
    ensures { MatchOption result (length (keys_of keys.now) ≤ index)
        (λ name. slice_get (keys_of keys.now) index ≡ Some name.now) }
{
    match keys.at(index) {
        None => None,
        Some((name, _)) => Some(name.as_str()),
    }
}

fn put_key(alloc: Global, gathered: &mut Gathered, name: &str, index: usize) -> Result<(), Memory>
    ensures { (done : List (List ℕ)) → length done ≡ index → HasGathered done gathered.old
        → OnOk result (HasGathered (done ++ name.now ∷ []) gathered.new) }
{
    match at_star(name) {
        None => {
            gathered
                .exact
                .push((Bytes::of(alloc, name.as_bytes())?, index))?;
            Ok(())
        }
        Some((base, trailer)) => match at_star(trailer) {
            None => put_pattern(alloc, &mut gathered.groups, base, trailer, index),
            Some(_) => Ok(()),
        },
    }
}

fn put_pattern(
    alloc: Global,
    groups: &mut BTreeMap<Text, Group>,
    base: &str,
    trailer: &str,
    index: usize,
) -> Result<(), Memory>
    ensures { OnOk result (PutsPattern base.now (reverse trailer.now, index) groups.old groups.new) }
{
    let back = reversed(alloc, trailer)?;
    let base = Text::of(alloc, base)?;
    match groups.get_mut(&base) {
        Some(group) => {
            group.push((back, index))?;
        }
        None => {
            let mut group = Listed::from_vec(Vec::with_capacity(alloc, 1)?);
            group.push((back, index))?;
            groups.insert(base, group)?;
        }
    }
    Ok(())
}

// The groups, each in order.
fn in_order(
    alloc: Global,
    groups: BTreeMap<Text, Group>,
) -> Result<Listed<(Bytes, Fronts<usize>)>, Memory>
    ensures grouped { IfOk result (HasGrouped groups.entries []) }
    ensures ordered { IfOk result (λ made. IsOrdered (slice_cmp nat_cmp) groups) }
{
    let mut made = Listed::from_vec(Vec::with_capacity(alloc, groups.len())?);
    for (base, group) in groups {
        let base = Bytes::of(alloc, base.as_str().as_bytes())?;
        made.push((base, Fronts::of(alloc, group)?))?;
    }
    Ok(made)
}
