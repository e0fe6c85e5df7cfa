//! An `exports` or `imports`, whose keys are indexed.
ghost use Rattle.std.specs.Prelude.{◌≡◌, List, ℕ, Bool, IfOk, IfSome};
ghost use Rattle.std.specs.List.{list_any, list_all};
ghost use Rattle.json_spec.specs.Value.{names_of};
ghost use Rattle.node_spec.specs.PackageExportsResolve as exports;
ghost use Rattle.ordered_json.specs.Lists.{pairs_of};
ghost use Rattle.ordered_json.specs.Shown.{json_of, members_of};
ghost use Rattle.ordered_json.specs.declared.value.Value.{Value as Code};
ghost use Rattle.condition_match.specs.Reducing.{ComesAs};
ghost use Rattle.package_record.specs.Indexed.{HasTargets, IsIndexOf, IsSubpaths};
ghost use Rattle.package_record.specs.Targets.{IsLeftOf, StandsIn};

use crate::left::{LeftTargets, left_of};
use condition_match::Conditions;
use exports_patterns::{Keys, keys_in};
use ordered_json::{Members, Text, Value};
use shared_types::Memory;
use std::alloc::Global;

/// The value of `exports` or `imports`, with the keys of the object that it is. Of another value there are none.
#[derive(Drop)]
pub struct Subpaths {
    /// The value as it stands, null where absent.
    pub value: Value,
    /// Its keys.
    pub index: Index,
    /// What is left of its targets under some conditions, where that was asked for.
    pub left: Option<LeftTargets>,
}

/// The keys of an object.
#[derive(Drop)]
pub struct Index {
    /// Those that may match.
    pub keys: Keys,
    /// Whether a key begins with `.`.
    pub has_dotted: bool,
    /// Whether each key does.
    pub are_dotted: bool,
}

impl Subpaths {
    /// A value with its keys, and with what is left of its targets under these conditions.
    pub(crate) fn of(
        alloc: Global,
        value: Value,
        conditions: Option<&Conditions>,
        imports: bool,
    ) -> Result<Subpaths, Memory>
        ensures value { IfOk result (λ made. made.value ≡ value) }
        ensures targets { IfOk result (HasTargets imports) }
    {
        let index = index_of(alloc, &value)?;
        let left = left_by(alloc, &value, conditions, imports)?;
        Ok(Subpaths { value, index, left })
    }

    /// The value as a target under these conditions, or what is left of it.
    pub fn as_target(&self, conditions: &Conditions) -> &Value
        ensures { (imports : Bool) → IsSubpaths imports self.now
            → ComesAs conditions.now imports (json_of self.now.value) (json_of result.now) }
    {
        match &self.left {
            None => &self.value,
            Some(left) => {
                if left.conditions.is_same(conditions) {
                    &left.whole
                } else {
                    &self.value
                }
            }
        }
    }

    /// The target of the member at a place under these conditions, or what is left of it.
    pub fn target_at<'a>(
        &'a self,
        place: usize,
        target: &'a Value,
        conditions: &Conditions,
    ) -> &'a Value
        ensures { (imports : Bool) (key : List ℕ) → IsSubpaths imports self.now
            → StandsIn self.now.value place key target.now
            → ComesAs conditions.now imports (json_of target.now) (json_of result.now) }
    {
        match &self.left {
            None => target,
            Some(left) => {
                if left.conditions.is_same(conditions) {
                    left_at(left, place, target)
                } else {
                    target
                }
            }
        }
    }
}

fn left_at<'a>(left: &'a LeftTargets, place: usize, target: &'a Value) -> &'a Value
    ensures { (imports : Bool) (value : Code) (key : List ℕ) → IsLeftOf imports value left.now
        → StandsIn value place key target.now
        → ComesAs left.now.conditions imports (json_of target.now) (json_of result.now) }
{
    match left.targets.as_slice().get(place) {
        None => target,
        Some(made) => made,
    }
}

fn left_by(
    alloc: Global,
    value: &Value,
    conditions: Option<&Conditions>,
    imports: bool,
) -> Result<Option<LeftTargets>, Memory>
    ensures { IfOk result (λ made. IfSome made (IsLeftOf imports value.now)) }
{
    match conditions {
        None => Ok(None),
        Some(conditions) => Ok(Some(left_of(alloc, value, conditions, imports)?)),
    }
}

fn index_of(alloc: Global, value: &Value) -> Result<Index, Memory>
    ensures { IfOk result (IsIndexOf value.now) }
{
    match value.as_object() {
        None => no_index(alloc),
        Some(members) => Ok(Index {
            keys: keys_in(alloc, members)?,
            has_dotted: has_dotted(members),
            are_dotted: are_dotted(members),
        }),
    }
}

fn no_index(alloc: Global) -> Result<Index, Memory> {
    Ok(Index {
        keys: keys_in(alloc, &Members::new(alloc))?,
        has_dotted: false,
        are_dotted: false,
    })
}

// Whether a name begins with `.`.
fn has_dotted(members: &Members) -> bool
    ensures { result ≡ exports.has_dotted (members_of (pairs_of members.now)) }
{
    any_dotted(members.as_slice())
}

fn any_dotted(members: &[(Text, Value)]) -> bool
    ensures { result ≡ list_any (λ member. exports.is_dotted member.0) members.now }
{
    members.iter().any(|member| is_dotted(member.0.as_str()))
}

// Whether each name does.
fn are_dotted(members: &Members) -> bool
    ensures { result ≡ list_all exports.is_dotted (names_of (members_of (pairs_of members.now))) }
{
    all_dotted(members.as_slice())
}

fn all_dotted(members: &[(Text, Value)]) -> bool
    ensures { result ≡ list_all (λ member. exports.is_dotted member.0) members.now }
{
    members.iter().all(|member| is_dotted(member.0.as_str()))
}

#[tactic(auto, using(std::proofs::lemmas::Str::Pattern::starts_text))]
fn is_dotted(name: &str) -> bool
    ensures { result ≡ exports.is_dotted name.now }
{
    name.starts_with(".")
}
