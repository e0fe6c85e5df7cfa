ghost use Rattle.std.specs.Prelude.{◌≡◌, ◌∷◌, ◌+◌, List, ℕ, IfOk, OnOk};
ghost use Rattle.json_spec.specs.PropertyOrder.{in_property_order, index_members, other_members, joined};
ghost use Rattle.ordered_json.specs.Lists.{pairs_of};
ghost use Rattle.ordered_json.specs.Shown.{json_of, members_of};
ghost use Rattle.ordered_json.specs.declared.value.Value.{Value};
ghost use Rattle.ordered_json.specs.Lent.{lent, HasIndices};
ghost use Rattle.std.specs.Map.{values_of};
ghost use Rattle.json_spec.specs.Value.{a_member, Members as Spec};

use crate::index_keys::array_index;
use crate::value::{Members, Value};
use shared_types::{Memory, Text};
use std::alloc::Global;
use std::collections::BTreeMap;

/// The members of an object in property order.
#[tactic(auto, using(crate::proofs::PropertyOrderLemmas::whole))]
pub fn in_property_order(alloc: Global, members: &Members) -> Result<Vec<&(Text, Value)>, Memory>
    ensures { IfOk result (λ pairs. lent pairs.items ≡ in_property_order (members_of (pairs_of members.now))) }
{
    let pairs = members.as_slice();
    let mut ordered = index_pairs(alloc, pairs)?;
    put_others(&mut ordered, pairs)?;
    Ok(ordered)
}

// The pairs whose names are array indices, by number.
fn index_pairs(alloc: Global, pairs: &[(Text, Value)]) -> Result<Vec<&(Text, Value)>, Memory>
    ensures { IfOk result (λ indices. lent indices.items ≡ index_members (members_of pairs.now)) }
{
    let mut indices = Vec::new(alloc);
    let numbered = by_number(alloc, pairs)?;
    for pair in numbered.into_values() {
        indices.push(pair)?;
    }
    Ok(indices)
}

// The same, each under its number and the number of pairs from it to the end.
fn by_number(
    alloc: Global,
    pairs: &[(Text, Value)],
) -> Result<BTreeMap<(u32, usize), &(Text, Value)>, Memory>
    ensures { IfOk result (λ numbered. lent (values_of numbered.entries) ≡ index_members (members_of pairs.now)) }
{
    let mut numbered = BTreeMap::new(alloc);
    let mut rest = pairs;
    while let Some((pair, more)) = rest.split_last() {
        put_index(&mut numbered, pairs.len() - more.len(), pair)?;
        rest = more;
    }
    Ok(numbered)
}

// Puts a pair that stands before those that were put.
fn put_index<'a>(
    numbered: &mut BTreeMap<(u32, usize), &'a (Text, Value)>,
    count: usize,
    pair: &'a (Text, Value),
) -> Result<(), Memory>
    ensures { OnOk result ((seen : List (List ℕ × Value)) → HasIndices count seen numbered.old
        → HasIndices (count + 1) (pair.now ∷ seen) numbered.new) }
{
    match array_index(pair.0.as_str().as_bytes()) {
        None => Ok(()),
        Some(number) => {
            numbered.insert((number, count), pair)?;
            Ok(())
        }
    }
}

// Puts the other pairs behind those that are there, as they are written.
fn put_others<'a>(
    ordered: &mut Vec<&'a (Text, Value)>,
    pairs: &'a [(Text, Value)],
) -> Result<(), Memory>
    ensures { OnOk result (lent ordered.new.items
        ≡ joined (lent ordered.old.items) (other_members (members_of pairs.now))) }
{
    let mut rest = pairs;
    while let Some((pair, more)) = rest.split_first() {
        put_other(ordered, pair)?;
        rest = more;
    }
    Ok(())
}

fn put_other<'a>(
    ordered: &mut Vec<&'a (Text, Value)>,
    pair: &'a (Text, Value),
) -> Result<(), Memory>
    ensures { OnOk result ((more : Spec)
        → joined (lent ordered.new.items) (other_members more)
        ≡ joined (lent ordered.old.items) (other_members (a_member pair.now.0 (json_of pair.now.1) more))) }
{
    match array_index(pair.0.as_str().as_bytes()) {
        Some(_) => Ok(()),
        None => {
            ordered.push(pair)?;
            Ok(())
        }
    }
}
