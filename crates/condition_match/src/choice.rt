ghost use Rattle.std.specs.Prelude.{◌≡◌, ◌<◌, ◌+◌, ◌∷◌, IfOk, OnErr, drop, length, option_map};
ghost use Rattle.node_spec.specs.PackageTargets.{ResolvesTarget, ResolvesItems, ResolvesMembers, is_undefined};
ghost use Rattle.node_spec.specs.PackageTargets.{is_passed, is_tried, last_of};
ghost use Rattle.ordered_json.specs.Lists.{values_of, pairs_of};
ghost use Rattle.ordered_json.specs.Shown.{json_of, items_of, members_of};
ghost use Rattle.condition_match.specs.Choosing.{Begins, Comes, Chooses, Tries, judged_by, rules_of};

use crate::bare_target::BareTarget;
use crate::conditions::Conditions;
use crate::index_keys::has_index_key;
use crate::strings::choose_text;
use node_spec::Outcome;
use ordered_json::{Items, Members, Text, Value};
use shared_types::Memory;
use std::alloc::Global;

/// What a target is judged by, beside its package.
#[derive(Clone, Copy)]
pub struct Rules<'a> {
    pub conditions: &'a Conditions,
    pub star: Option<&'a str>,
    pub imports: bool,
}

/// What a target comes to (Node.js, ECMAScript modules: PACKAGE_TARGET_RESOLVE) under these conditions, with a text for
/// each `*` or none. A target of `imports` may name another package: `bare` is asked for each such text that the rules
/// reach, in their order, and for no other. Where memory is wanted on the way, `bare` was asked for the first of them.
pub fn choose<B: BareTarget>(
    alloc: Global,
    target: &Value,
    conditions: &Conditions,
    star: Option<&str>,
    imports: bool,
    bare: &mut B,
) -> Result<Outcome, Memory>
    ensures chosen { IfOk result (Chooses B.gives
        (judged_by conditions.now (option_map (λ text. text.now) star.entry) imports)
        (json_of target.now) bare.old bare.new) }
    ensures memory { OnErr result (Begins B.gives B.fails
        (ResolvesTarget (judged_by conditions.now (option_map (λ text. text.now) star.entry) imports)
        (json_of target.now)) bare.old bare.new) }
{
    let rules = Rules {
        conditions,
        star,
        imports,
    };
    choose_value(alloc, target, &rules, bare)
}

#[cycle(choose)]
fn choose_value<B: BareTarget>(
    alloc: Global,
    target: &Value,
    rules: &Rules<'_>,
    bare: &mut B,
) -> Result<Outcome, Memory>
    ensures { Comes B.gives B.fails (ResolvesTarget (rules_of rules.now) (json_of target.now)) bare.old bare.new
        result }
{
    match target {
        Value::Null => Ok(Outcome::Null),
        Value::Bool(_) => Ok(Outcome::InvalidTarget),
        Value::Number(_) => Ok(Outcome::InvalidTarget),
        Value::Text(text) => choose_text(alloc, text.as_str(), rules, bare),
        Value::List(items) => {
            if items.is_empty() {
                Ok(Outcome::Null)
            } else {
                choose_item(alloc, items, rules, bare)
            }
        }
        Value::Object(members) => {
            if has_index_key(members) {
                Ok(Outcome::InvalidConfig)
            } else {
                choose_member(alloc, members, rules, bare)
            }
        }
    }
}

#[cycle(choose)]
fn choose_item<B: BareTarget>(
    alloc: Global,
    items: &Items,
    rules: &Rules<'_>,
    bare: &mut B,
) -> Result<Outcome, Memory>
    ensures { Comes B.gives B.fails (ResolvesItems (rules_of rules.now) (items_of (values_of items.now))) bare.old
        bare.new result }
{
    let mut last = Outcome::Undefined;
    for index in 0..items.len() {
        let item = item_at(items, index);
        let outcome = choose_value(alloc, item, rules, bare)?;
        if !is_passed(&outcome) {
            return Ok(outcome);
        }
        last = later(last, outcome);
    }
    Ok(last)
}

#[cycle(choose)]
fn choose_member<B: BareTarget>(
    alloc: Global,
    members: &Members,
    rules: &Rules<'_>,
    bare: &mut B,
) -> Result<Outcome, Memory>
    ensures { Comes B.gives B.fails (ResolvesMembers (rules_of rules.now) (members_of (pairs_of members.now)))
        bare.old bare.new result }
{
    for index in 0..members.len() {
        let (key, value) = member_at(members, index);
        let outcome = try_member(alloc, key, value, rules, bare)?;
        if !is_undefined(&outcome) {
            return Ok(outcome);
        }
    }
    Ok(Outcome::Undefined)
}

// What one member comes to: nothing, where its key isn't tried.
#[cycle(choose)]
fn try_member<B: BareTarget>(
    alloc: Global,
    key: &Text,
    value: &Value,
    rules: &Rules<'_>,
    bare: &mut B,
) -> Result<Outcome, Memory>
    ensures { Comes B.gives B.fails (Tries (rules_of rules.now) key.now (json_of value.now)) bare.old bare.new result }
{
    if is_tried(rules.conditions, key.as_str()) {
        choose_value(alloc, value, rules, bare)
    } else {
        Ok(Outcome::Undefined)
    }
}

/// Whether a member with this key is tried.
pub(crate) fn is_tried(conditions: &Conditions, key: &str) -> bool
    ensures { result ≡ is_tried conditions.now key.now }
{
    key == "default" || conditions.holds(key)
}

fn is_undefined(outcome: &Outcome) -> bool
    ensures { result ≡ is_undefined outcome.now }
{
    match outcome {
        Outcome::Undefined => true,
        _ => false,
    }
}

fn is_passed(outcome: &Outcome) -> bool
    ensures { result ≡ is_passed outcome.now }
{
    match outcome {
        Outcome::Undefined => true,
        Outcome::Null => true,
        Outcome::InvalidTarget => true,
        _ => false,
    }
}

fn later(last: Outcome, outcome: Outcome) -> Outcome
    ensures { result ≡ last_of last outcome }
{
    if is_undefined(&outcome) {
        last
    } else {
        outcome
    }
}

/// The item with this number.
pub(crate) fn item_at(items: &Items, index: usize) -> &Value
    requires { index < length (values_of items.now) }
    ensures { drop index (values_of items.now) ≡ result.now ∷ drop (index + 1) (values_of items.now) }
{
    match items.at(index) {
        Some(item) => item,
        None => unreachable!(),
    }
}

/// The member with this number.
pub(crate) fn member_at(members: &Members, index: usize) -> (&Text, &Value)
    requires { index < length (pairs_of members.now) }
    ensures { drop index (pairs_of members.now) ≡ (result.0.now, result.1.now) ∷ drop (index + 1)
        (pairs_of members.now) }
{
    match members.at(index) {
        Some(member) => member,
        None => unreachable!(),
    }
}
