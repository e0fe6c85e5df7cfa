ghost use Rattle.std.specs.Prelude.{◌≡◌, ◌↔◌, All, IfOk, IsTrue, bytes_eq, slice_get, option_map, string_bytes};
ghost use Rattle.std.specs.List.{IsDistinct};
ghost use Rattle.node_spec.specs.Records.{text_in};
ghost use Rattle.ordered_json.specs.Lists.{values_of};
ghost use Rattle.ordered_json.specs.Shown.{json_of, items_of};
ghost use Rattle.project_file.specs.Parts.{HoldsStrings, IsAnyList};
ghost use Rattle.project_file.specs.Names.{IsName, joined};
ghost use Rattle.project_file.specs.Strings.{list_in, string_found};

use indexmap::IndexSet;
use ordered_json::{Items, Value};
use shared_types::{Listed, Memory, Text};
use std::alloc::Global;

/// The texts of a list of strings; None where a value of the list is no string.
pub fn strings_in(alloc: Global, items: &Items) -> Result<Option<Listed<Text>>, Memory>
    ensures { IfOk result (HoldsStrings (items_of (values_of items.now)) IsAnyList) }
{
    let mut texts = Listed::new(alloc);
    for index in 0..items.len() {
        match string_at(items, index) {
            None => return Ok(None),
            Some(text) => texts.push(text.copy(alloc)?)?,
        }
    }
    Ok(Some(texts))
}

// The string with this number in a list.
fn string_at(items: &Items, index: usize) -> Option<&Text>
    ensures { option_map (λ text. text.now) result
        ≡ string_found (option_map json_of (slice_get (values_of items.now) index)) }
{
    match items.at(index) {
        None => None,
        Some(value) => string_of(value),
    }
}

/// The text of a value that is a string.
pub fn string_of(value: &Value) -> Option<&Text>
    ensures { option_map (λ text. text.now) result ≡ text_in (json_of value.now) }
{
    match value {
        Value::Text(text) => Some(text),
        Value::Null => None,
        Value::Bool(_) => None,
        Value::Number(_) => None,
        Value::List(_) => None,
        Value::Object(_) => None,
    }
}

/// The list that a value is.
pub fn list_of(value: &Value) -> Option<&Items>
    ensures { option_map (λ items. items_of (values_of items.now)) result ≡ list_in (json_of value.now) }
{
    match value {
        Value::List(items) => Some(items),
        Value::Null => None,
        Value::Bool(_) => None,
        Value::Number(_) => None,
        Value::Text(_) => None,
        Value::Object(_) => None,
    }
}

/// Whether no text stands twice.
pub fn are_distinct(alloc: Global, texts: &[Text]) -> Result<bool, Memory>
    ensures { IfOk result (λ distinct. IsTrue distinct ↔ IsDistinct bytes_eq texts.now) }
{
    let mut seen = IndexSet::new(alloc);
    for text in texts {
        let is_new = seen.insert(text.copy(alloc)?)?;
        if !is_new {
            return Ok(false);
        }
    }
    Ok(true)
}

/// Whether each text may stand between commas: it isn't empty and has no comma.
pub fn are_names(texts: &[Text]) -> bool
    ensures { IsTrue result ↔ All IsName texts.now }
{
    texts.iter().all(|text| is_name(text.as_str()))
}

fn is_name(text: &str) -> bool
    ensures { IsTrue result ↔ IsName text.now }
{
    match text {
        "" => false,
        _ => !text.contains(','),
    }
}

/// The texts with a comma between each two.
pub fn joined(alloc: Global, texts: &[Text]) -> Result<String, Memory>
    ensures { IfOk result (λ text. string_bytes text ≡ joined texts.now) }
{
    let Some((first, more)) = texts.split_first() else {
        return Ok(String::new(alloc));
    };
    let mut text = String::from_str(alloc, first.as_str())?;
    for next in more {
        text.push(',')?;
        text.push_str(next.as_str())?;
    }
    Ok(text)
}
