//! Targets without what their conditions decide.
ghost use Rattle.std.specs.Prelude.{◌≡◌, ◌≢◌, ◌↔◌, ◌∷◌, List, [], ℕ, Bool, false, IfOk, IsTrue, codes, map, reverse, length};
ghost use Rattle.json_spec.specs.Value.{a_text, a_null, a_list, an_object, a_member, no_members};
ghost use Rattle.node_spec.specs.PackageTargets.{has_index_key};
ghost use Rattle.ordered_json.specs.Lists.{values_of, pairs_of};
ghost use Rattle.ordered_json.specs.Shown.{json_of, items_of, members_of};
ghost use Rattle.condition_match.specs.Reducing.{ComesAs, IsPassed, IsReduced, IsWhole, LeavesMember};
ghost use Rattle.condition_match.specs.Reducing.{left_in, shown, PutsItem};

use crate::choice::{is_tried, item_at, member_at};
use crate::conditions::Conditions;
use crate::index_keys::has_index_key;
use crate::segments::leaves_package;
use crate::strings::{begins, names_package};
use ordered_json::{Items, Members, Text, Value};
use shared_types::Memory;
use std::alloc::Global;

/// What is left of a target.
#[derive(Drop)]
pub(crate) enum Reduced {
    /// Nothing: no member of an object in it is tried.
    Undefined,
    /// It comes to null.
    Null,
    /// It is no target.
    InvalidTarget,
    /// It comes to what this one comes to.
    As(Value),
}

// What is left of the items of a list from one on: the first, and those behind it from the last one.
#[derive(Drop)]
pub(crate) struct Left {
    first: Reduced,
    back: Vec<Value>,
}

/// What is left of a target under these conditions, whatever stands for `*`: of an object the value of the member that
/// is taken, of a list the items that may decide it. It comes to what the target comes to, by a way that is no longer
/// than the texts among its items.
pub fn reduced_target(
    alloc: Global,
    target: &Value,
    conditions: &Conditions,
    imports: bool,
) -> Result<Value, Memory>
    ensures { IfOk result (λ made. ComesAs conditions.now imports (json_of target.now) (json_of made)) }
{
    let made = reduced_value(alloc, target, conditions, imports)?;
    Ok(value_of(alloc, made))
}

fn value_of(alloc: Global, made: Reduced) -> Value
    ensures { json_of result ≡ shown made }
{
    match made {
        Reduced::Undefined => Value::Object(Members::new(alloc)),
        Reduced::Null => Value::Null,
        Reduced::InvalidTarget => Value::Bool(false),
        Reduced::As(value) => value,
    }
}

#[cycle(reduce)]
fn reduced_value(
    alloc: Global,
    target: &Value,
    conditions: &Conditions,
    imports: bool,
) -> Result<Reduced, Memory>
    ensures { IfOk result (IsReduced conditions.now imports (json_of target.now)) }
{
    match target {
        Value::Null => Ok(Reduced::Null),
        Value::Bool(_) => Ok(Reduced::InvalidTarget),
        Value::Number(_) => Ok(Reduced::InvalidTarget),
        Value::Text(text) => reduced_text(alloc, text.as_str(), imports),
        Value::List(items) => {
            if items.is_empty() {
                Ok(Reduced::Null)
            } else {
                reduced_items(alloc, items, conditions, imports)
            }
        }
        Value::Object(members) => {
            if has_index_key(members) {
                no_object(alloc)
            } else {
                reduced_members(alloc, members, conditions, imports)
            }
        }
    }
}

// A text is left as it is, where it may be a place or name a package.
fn reduced_text(alloc: Global, target: &str, imports: bool) -> Result<Reduced, Memory>
    ensures { IfOk result (λ made. (conditions : List (List ℕ))
        → IsReduced conditions imports (a_text target.now) made) }
{
    if begins(target, "./") {
        if leaves_package(alloc, target)? {
            return Ok(Reduced::InvalidTarget);
        }
        return Ok(Reduced::As(Value::Text(Text::of(alloc, target)?)));
    }
    if names_package(alloc, target, imports)? {
        Ok(Reduced::As(Value::Text(Text::of(alloc, target)?)))
    } else {
        Ok(Reduced::InvalidTarget)
    }
}

// An object with a name that is an array index.
fn no_object(alloc: Global) -> Result<Reduced, Memory>
    ensures { IfOk result (λ made. shown made ≡ an_object (a_member (codes "0") a_null no_members)) }
{
    let mut members = Members::new(alloc);
    members.push(Text::of(alloc, "0")?, Value::Null)?;
    Ok(Reduced::As(Value::Object(members)))
}

#[cycle(reduce)]
fn reduced_items(
    alloc: Global,
    items: &Items,
    conditions: &Conditions,
    imports: bool,
) -> Result<Reduced, Memory>
    requires { length (values_of items.now) ≢ 0 }
    ensures { IfOk result (IsReduced conditions.now imports (a_list (items_of (values_of items.now)))) }
{
    let mut left = Left {
        first: Reduced::Undefined,
        back: Vec::new(alloc),
    };
    let mut index = items.len();
    while index > 0 {
        index -= 1;
        let item = item_at(items, index);
        let made = reduced_value(alloc, item, conditions, imports)?;
        left = put_item(left, made)?;
    }
    whole(alloc, left)
}

// What is left, where one more item stands before it. A list goes on behind an item that is passed, so such a one counts
// where none is left behind it.
fn put_item(left: Left, made: Reduced) -> Result<Left, Memory>
    ensures { IfOk result (PutsItem made left) }
{
    match made {
        Reduced::Undefined => Ok(left),
        Reduced::Null => put_passed(left, Reduced::Null),
        Reduced::InvalidTarget => put_passed(left, Reduced::InvalidTarget),
        Reduced::As(value) => put_front(left, Reduced::As(value)),
    }
}

fn put_passed(left: Left, made: Reduced) -> Result<Left, Memory>
    requires { IsPassed made }
    ensures { IfOk result (PutsItem made left) }
{
    if is_undefined(&left.first) {
        put_front(left, made)
    } else {
        Ok(left)
    }
}

fn put_front(left: Left, made: Reduced) -> Result<Left, Memory>
    requires { made ≢ Reduced.Undefined }
    ensures { IfOk result (PutsItem made left) }
{
    let back = behind(left.first, left.back)?;
    Ok(Left { first: made, back })
}

// The first value and those behind it, from the last one.
fn behind(first: Reduced, back: Vec<Value>) -> Result<Vec<Value>, Memory>
    ensures { IfOk result (λ all. (first ≡ Reduced.Undefined → back.items ≡ [])
        → map json_of (reverse all.items) ≡ left_in first back.items) }
{
    match first {
        Reduced::Undefined => Ok(back),
        Reduced::Null => {
            let all = pushed(back, Value::Null)?;
            Ok(all)
        }
        Reduced::InvalidTarget => {
            let all = pushed(back, Value::Bool(false))?;
            Ok(all)
        }
        Reduced::As(value) => {
            let all = pushed(back, value)?;
            Ok(all)
        }
    }
}

fn pushed(back: Vec<Value>, value: Value) -> Result<Vec<Value>, Memory>
    ensures { IfOk result (λ all. map json_of (reverse all.items) ≡ json_of value ∷ map json_of (reverse back.items)) }
{
    let mut all = back;
    all.push(value)?;
    Ok(all)
}

fn is_undefined(made: &Reduced) -> bool
    ensures { IsTrue result ↔ (made.now ≡ Reduced.Undefined) }
{
    match made {
        Reduced::Undefined => true,
        Reduced::Null => false,
        Reduced::InvalidTarget => false,
        Reduced::As(_) => false,
    }
}

fn whole(alloc: Global, left: Left) -> Result<Reduced, Memory>
    ensures { IfOk result (IsWhole left) }
{
    if left.back.as_slice().is_empty() {
        return Ok(left.first);
    }
    let back = behind(left.first, left.back)?;
    Ok(Reduced::As(Value::List(turned(alloc, back)?)))
}

// The list of these values from the last one on.
fn turned(alloc: Global, back: Vec<Value>) -> Result<Items, Memory>
    ensures { IfOk result (λ items. values_of items ≡ reverse back.items) }
{
    let mut items = Items::new(alloc);
    let mut rest = back;
    while let Some(value) = rest.pop() {
        items.push(value)?;
    }
    Ok(items)
}

#[cycle(reduce)]
fn reduced_members(
    alloc: Global,
    members: &Members,
    conditions: &Conditions,
    imports: bool,
) -> Result<Reduced, Memory>
    requires { has_index_key (members_of (pairs_of members.now)) ≡ false }
    ensures { IfOk result (IsReduced conditions.now imports (an_object (members_of (pairs_of members.now)))) }
{
    for index in 0..members.len() {
        let (key, value) = member_at(members, index);
        let made = reduced_member(alloc, key, value, conditions, imports)?;
        if !is_undefined(&made) {
            return Ok(made);
        }
    }
    Ok(Reduced::Undefined)
}

#[cycle(reduce)]
fn reduced_member(
    alloc: Global,
    key: &Text,
    value: &Value,
    conditions: &Conditions,
    imports: bool,
) -> Result<Reduced, Memory>
    ensures { IfOk result (LeavesMember conditions.now imports key.now (json_of value.now)) }
{
    if is_tried(conditions, key.as_str()) {
        reduced_value(alloc, value, conditions, imports)
    } else {
        Ok(Reduced::Undefined)
    }
}
