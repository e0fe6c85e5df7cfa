//! The value of a JSON text.

use ordered_json::{Items, JsonFault, Members, Value, read};
use row_texts::Said;
use std::alloc::Global;

fn push_text(said: &mut Said, text: &str) {
    said.push_all(&["'", text, "'"]);
}

fn push_comma(said: &mut Said, index: usize) {
    if index > 0 {
        said.push(",");
    }
}

#[cycle(spell)]
fn push_items(said: &mut Said, items: &Items, depth: u8) {
    said.push("[");
    for index in 0..items.len() {
        push_comma(said, index);
        if let Some(item) = items.at(index) {
            push_value(said, item, depth);
        }
    }
    said.push("]");
}

#[cycle(spell)]
fn push_members(said: &mut Said, members: &Members, depth: u8) {
    said.push("{");
    for index in 0..members.len() {
        push_comma(said, index);
        if let Some((key, value)) = members.at(index) {
            push_text(said, key.as_str());
            said.push(":");
            push_value(said, value, depth);
        }
    }
    said.push("}");
}

// Spells a value, down to this depth.
#[cycle(spell)]
fn push_value(said: &mut Said, value: &Value, depth: u8) {
    match value {
        Value::Text(text) => push_text(said, text.as_str()),
        Value::List(items) if depth > 0 => push_items(said, items, depth - 1),
        Value::Object(members) if depth > 0 => push_members(said, members, depth - 1),
        plain => said.push(plain_text(plain)),
    }
}

fn plain_text(value: &Value) -> &str {
    match value {
        Value::Null => "null",
        Value::Bool(true) => "true",
        Value::Bool(false) => "false",
        Value::Number(number) => number.as_str(),
        Value::Text(_) | Value::List(_) | Value::Object(_) => "..",
    }
}

/// The value without space, its texts as they are between `'`, eight brackets deep; or the first fault.
pub fn tell_value(alloc: Global, bytes: &[u8], said: &mut Said) {
    match read(alloc, bytes) {
        Ok(value) => push_value(said, &value, 8),
        Err(JsonFault::NotJson { at }) => said.push_place("NotJson ", at),
        Err(JsonFault::TooDeep { at }) => said.push_place("TooDeep ", at),
        Err(JsonFault::Memory) => said.push("memory"),
    }
}
