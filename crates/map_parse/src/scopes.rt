ghost use Rattle.std.specs.Prelude.{◌≡◌, true, false, Ok, MatchResult, OnOk};
ghost use Rattle.std.specs.FinMap.{empty};
ghost use Rattle.url_spec.specs.Parsing.{parse_against};
ghost use Rattle.import_map_spec.specs.Parsing.{scopes_onto, normalized_scopes, with_scope, normalized_addresses};
ghost use Rattle.ordered_json.specs.Lists.{pairs_of};
ghost use Rattle.ordered_json.specs.Shown.{json_of, members_of};
ghost use Rattle.json_spec.specs.PropertyOrder.{in_property_order, is_array_index};
ghost use Rattle.json_spec.specs.Value.{a_member, Members as Spec};
ghost use Rattle.ordered_json.specs.Lent.{lent};
ghost use Rattle.map_parse.specs.Faults.{FailsPart};

use crate::text_map::Gathering;
use crate::{Addresses, MapFault, MapPart, TextMap};
use ordered_json::{Members, Text, Value, in_property_order};
use shared_types::Memory;
use std::alloc::Global;
use web_url::WebUrl;

/// The scopes that the members of an object give, which are moved.
#[tactic(auto, using(crate::proofs::FaultLemmas::faults))]
pub fn scopes_of(
    alloc: Global,
    base: &WebUrl,
    members: Members,
) -> Result<TextMap<Addresses>, MapFault>
    ensures { MatchResult result
        (λ scopes. normalized_scopes base.now (members_of (pairs_of members)) ≡ Ok scopes)
        (λ fault. FailsPart fault (normalized_scopes base.now (members_of (pairs_of members)))) }
{
    match gathered_of(alloc, base, members) {
        Err(fault) => Err(fault),
        Ok(scopes) => match scopes.into_map() {
            Err(_) => Err(MapFault::Memory),
            Ok(scopes) => Ok(scopes),
        },
    }
}

// The same as they are gathered.
fn gathered_of(
    alloc: Global,
    base: &WebUrl,
    members: Members,
) -> Result<Gathering<Addresses>, MapFault>
    ensures { MatchResult result
        (λ scopes. normalized_scopes base.now (members_of (pairs_of members)) ≡ Ok scopes)
        (λ fault. FailsPart fault (normalized_scopes base.now (members_of (pairs_of members)))) }
{
    if are_as_written(members.as_slice()) {
        gathered_from(alloc, base, members)
    } else {
        gathered_in_order(alloc, base, &members)
    }
}

// Whether no name begins with a digit; then none is an array index, and the members stand in property order.
fn are_as_written(pairs: &[(Text, Value)]) -> bool
    ensures { result ≡ true → in_property_order (members_of pairs.now) ≡ members_of pairs.now }
{
    let mut rest = pairs;
    while let Some((pair, more)) = rest.split_first() {
        if begins_with_digit(pair.0.as_str().as_bytes()) {
            return false;
        }
        rest = more;
    }
    true
}

fn begins_with_digit(name: &[u8]) -> bool
    ensures { result ≡ false → is_array_index name.now ≡ false }
{
    match name.split_first() {
        None => false,
        Some((first, _)) => first.is_ascii_digit(),
    }
}

// Puts the members as they are written, each of which gives its memory back once it was read.
#[tactic(auto, using(crate::proofs::FaultLemmas::faults))]
fn gathered_from(
    alloc: Global,
    base: &WebUrl,
    members: Members,
) -> Result<Gathering<Addresses>, MapFault>
    ensures { MatchResult result
        (λ scopes. scopes_onto base.now empty (members_of (pairs_of members)) ≡ Ok scopes)
        (λ fault. FailsPart fault (scopes_onto base.now empty (members_of (pairs_of members)))) }
{
    let Ok(mut scopes) = Gathering::with_room(alloc, members.len()) else {
        return Err(MapFault::Memory);
    };
    let Ok(mut pairs) = members.into_pairs() else {
        return Err(MapFault::Memory);
    };
    pairs.reverse();
    while let Some((key, value)) = pairs.pop() {
        match put_member(alloc, base, &mut scopes, key.as_str(), &value) {
            Err(fault) => return Err(fault),
            Ok(()) => {}
        }
    }
    Ok(scopes)
}

// Puts the members in property order.
#[tactic(auto, using(crate::proofs::FaultLemmas::faults))]
fn gathered_in_order(
    alloc: Global,
    base: &WebUrl,
    members: &Members,
) -> Result<Gathering<Addresses>, MapFault>
    ensures { MatchResult result
        (λ scopes. normalized_scopes base.now (members_of (pairs_of members.now)) ≡ Ok scopes)
        (λ fault. FailsPart fault (normalized_scopes base.now (members_of (pairs_of members.now)))) }
{
    match in_property_order(alloc, members) {
        Err(_) => Err(MapFault::Memory),
        Ok(pairs) => gathered(alloc, base, pairs.as_slice()),
    }
}

#[tactic(auto, using(crate::proofs::FaultLemmas::faults))]
fn gathered(
    alloc: Global,
    base: &WebUrl,
    pairs: &[&(Text, Value)],
) -> Result<Gathering<Addresses>, MapFault>
    ensures { MatchResult result (λ scopes. scopes_onto base.now empty (lent pairs.now) ≡ Ok scopes)
        (λ fault. FailsPart fault (scopes_onto base.now empty (lent pairs.now))) }
{
    let Ok(mut scopes) = Gathering::with_room(alloc, pairs.len()) else {
        return Err(MapFault::Memory);
    };
    for pair in pairs {
        match put_member(alloc, base, &mut scopes, pair.0.as_str(), &pair.1) {
            Err(fault) => return Err(fault),
            Ok(()) => {}
        }
    }
    Ok(scopes)
}

// Puts the scope that a member gives.
#[tactic(auto, using(crate::proofs::FaultLemmas::faults))]
fn put_member(
    alloc: Global,
    base: &WebUrl,
    scopes: &mut Gathering<Addresses>,
    key: &str,
    value: &Value,
) -> Result<(), MapFault>
    ensures { (more : Spec) → MatchResult result
        (λ _. scopes_onto base.now scopes.old (a_member key.now (json_of value.now) more)
        ≡ scopes_onto base.now scopes.new more)
        (λ fault. FailsPart fault (scopes_onto base.now scopes.old (a_member key.now (json_of value.now) more))) }
{
    match value {
        Value::Object(members) => match put_scope(alloc, base, scopes, key, members) {
            Err(_) => Err(MapFault::Memory),
            Ok(()) => Ok(()),
        },
        Value::Null => Err(no_scope()),
        Value::Bool(_) => Err(no_scope()),
        Value::Number(_) => Err(no_scope()),
        Value::Text(_) => Err(no_scope()),
        Value::List(_) => Err(no_scope()),
    }
}

fn no_scope() -> MapFault
    ensures { result ≡ MapFault.NotObject MapPart.Scope }
{
    MapFault::NotObject {
        which: MapPart::Scope,
    }
}

fn put_scope(
    alloc: Global,
    base: &WebUrl,
    scopes: &mut Gathering<Addresses>,
    key: &str,
    members: &Members,
) -> Result<(), Memory>
    ensures { OnOk result (scopes.new ≡ with_scope (parse_against base.now key.now)
        (normalized_addresses base.now (members_of (pairs_of members.now))) scopes.old) }
{
    match base.join(alloc, key)? {
        None => Ok(()),
        Some(url) => scopes.put(url.into_text(alloc)?, Addresses::of(alloc, base, members)?),
    }
}
