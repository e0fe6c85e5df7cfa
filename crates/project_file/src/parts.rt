ghost use Rattle.std.specs.Prelude.{◌≡◌, IfOk, MatchOption, option_map, bytes_eq};
ghost use Rattle.std.specs.List.{IsDistinct};
ghost use Rattle.url_spec.specs.Bases.{base_of};
ghost use Rattle.import_map_spec.specs.Parsing.{member};
ghost use Rattle.ordered_json.specs.Lists.{pairs_of, values_of};
ghost use Rattle.ordered_json.specs.Shown.{json_of, items_of, members_of};
ghost use Rattle.node_spec.specs.Conditions.{AreConditions};
ghost use Rattle.project_spec.specs.ProjectFiles.{IsPagePath};
ghost use Rattle.project_file.specs.Strings.{list_found, object_in, string_found};
ghost use Rattle.project_file.specs.Parts.{HasNoParts, HoldsStrings, IsFilled, IsWritten, NotWritten};
ghost use Rattle.project_file.specs.Parts.{has_written};

use crate::lists::{are_distinct, are_names, joined, list_of, string_of, strings_in};
use crate::project::Project;
use condition_match::{Conditions, ConditionsFault};
use ordered_json::{Items, Members, Value};
use shared_types::{Listed, Memory, Text};
use std::alloc::{AllocError, Global};
use tree_model::{Path, PathFault};
use web_url::{Base, BaseFault};

/// The parts of a project as its file has them.
#[derive(Clone, Copy)]
pub struct Written<'a> {
    pub base: &'a str,
    pub page: &'a str,
    pub conditions: &'a Items,
    pub entries: &'a Items,
}

/// The parts that a JSON value has.
#[tactic(auto, using(crate::proofs::PartLemmas::objects))]
pub fn written_in(value: &Value) -> Option<Written<'_>>
    ensures { MatchOption result (NotWritten (json_of value.now)) (IsWritten (json_of value.now)) }
{
    match object_of(value) {
        None => None,
        Some(members) => parts_of(members),
    }
}

// The object that a value is.
fn object_of(value: &Value) -> Option<&Members>
    ensures { option_map (λ members. members_of (pairs_of members.now)) result ≡ object_in (json_of value.now) }
{
    match value {
        Value::Object(members) => Some(members),
        Value::Null => None,
        Value::Bool(_) => None,
        Value::Number(_) => None,
        Value::Text(_) => None,
        Value::List(_) => None,
    }
}

// The parts that an object has: four members, and no other.
#[tactic(auto, using(crate::proofs::PartLemmas::kinds))]
fn parts_of(members: &Members) -> Option<Written<'_>>
    ensures { MatchOption result (HasNoParts (members_of (pairs_of members.now)))
        (has_written (members_of (pairs_of members.now))) }
{
    if members.len() != 4 {
        return None;
    }
    let base = string_under(members, "base")?;
    let page = string_under(members, "page")?;
    let conditions = list_under(members, "conditions")?;
    let entries = list_under(members, "entries")?;
    Some(Written {
        base,
        page,
        conditions,
        entries,
    })
}

// The string that is the value of this member.
fn string_under<'a>(members: &'a Members, name: &str) -> Option<&'a str>
    ensures { option_map (λ text. text.now) result
        ≡ string_found (member name.now (members_of (pairs_of members.now))) }
{
    match member(members, name) {
        None => None,
        Some(value) => match string_of(value) {
            None => None,
            Some(text) => Some(text.as_str()),
        },
    }
}

// The list that is the value of this member.
fn list_under<'a>(members: &'a Members, name: &str) -> Option<&'a Items>
    ensures { option_map (λ items. items_of (values_of items.now)) result
        ≡ list_found (member name.now (members_of (pairs_of members.now))) }
{
    match member(members, name) {
        None => None,
        Some(value) => list_of(value),
    }
}

// The value of this member.
fn member<'a>(members: &'a Members, name: &str) -> Option<&'a Value>
    ensures { option_map (λ value. json_of value.now) result ≡ member name.now (members_of (pairs_of members.now)) }
{
    let mut rest = members.as_slice();
    while let Some((pair, more)) = rest.split_first() {
        if name == pair.0.as_str() {
            return Some(&pair.1);
        }
        rest = more;
    }
    None
}

/// The project whose parts are written so; None where one of them can't stand there.
#[tactic(auto, using(crate::proofs::PartLemmas::unfilled))]
pub(crate) fn filled(alloc: Global, written: &Written<'_>) -> Result<Option<Project>, Memory>
    ensures { IfOk result (IsFilled written.now.base.now written.now.page.now
        (items_of (values_of written.now.conditions.now)) (items_of (values_of written.now.entries.now))) }
{
    let Some(base) = base_in(alloc, written.base)? else {
        return Ok(None);
    };
    let Some(page) = page_in(alloc, written.page)? else {
        return Ok(None);
    };
    let Some(conditions) = conditions_in(alloc, written.conditions)? else {
        return Ok(None);
    };
    let Some(entries) = entries_in(alloc, written.entries)? else {
        return Ok(None);
    };
    Ok(Some(Project::new(base, page, conditions, entries)))
}

fn base_in(alloc: Global, text: &str) -> Result<Option<Base>, Memory>
    ensures { IfOk result (λ found. base_of text.now ≡ found) }
{
    match Base::parse(alloc, text) {
        Ok(base) => Ok(Some(base)),
        Err(BaseFault::BadBase) => Ok(None),
        Err(BaseFault::Memory) => Err(AllocError),
    }
}

// The path of a page, which isn't the root.
fn page_in(alloc: Global, text: &str) -> Result<Option<Path>, Memory>
    ensures { IfOk result (λ found. MatchOption found (IsPagePath text.now → ⊥)
        (λ page. (page ≡ text.now) × IsPagePath page)) }
{
    match Path::parse(alloc, text) {
        Ok(path) => {
            if text == "/" {
                Ok(None)
            } else {
                Ok(Some(path))
            }
        }
        Err(PathFault::BadPath) => Ok(None),
        Err(PathFault::Memory) => Err(AllocError),
    }
}

// The conditions that a list names. They are read from a text, in which commas part them.
#[tactic(auto, using(crate::proofs::PartLemmas::names_read))]
fn conditions_in(alloc: Global, items: &Items) -> Result<Option<Conditions>, Memory>
    ensures { IfOk result (HoldsStrings (items_of (values_of items.now)) AreConditions) }
{
    let Some(names) = strings_in(alloc, items)? else {
        return Ok(None);
    };
    if !are_names(names.as_slice()) {
        return Ok(None);
    }
    let text = joined(alloc, names.as_slice())?;
    match Conditions::parse(alloc, text.as_str()) {
        Ok(conditions) => Ok(Some(conditions)),
        Err(ConditionsFault::BadConditions) => Ok(None),
        Err(ConditionsFault::Memory) => Err(AllocError),
    }
}

// The entries of a list in which none stands twice.
#[tactic(auto, using(crate::proofs::PartLemmas::texts_read))]
fn entries_in(alloc: Global, items: &Items) -> Result<Option<Listed<Text>>, Memory>
    ensures { IfOk result (HoldsStrings (items_of (values_of items.now)) (IsDistinct bytes_eq)) }
{
    let Some(entries) = strings_in(alloc, items)? else {
        return Ok(None);
    };
    if !are_distinct(alloc, entries.as_slice())? {
        return Ok(None);
    }
    Ok(Some(entries))
}
