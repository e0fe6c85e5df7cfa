use ordered_json::{JsonFault, Value, read};
use std::rt::Runtime;
use std::{fs, io, mem};

/// The values of a list, or the members of an object; any other value is one.
fn count(value: &Value) -> usize {
    match value {
        Value::List(items) => items.len(),
        Value::Object(members) => members.len(),
        Value::Null | Value::Bool(_) | Value::Number(_) | Value::Text(_) => 1,
    }
}

/// What a JSON text holds at its top.
pub fn tell<R: Runtime + AllocGlobal>(rt: &R, name: &String) -> io::Result<()> {
    let text = fs::read(rt, name.as_str())?;
    match read(rt.alloc(), text.as_slice()) {
        Ok(value) => {
            let count = count(&value);
            // The process ends soon, and what is measured is reading.
            mem::forget(value);
            println!(rt; "{count} values")
        }
        Err(JsonFault::NotJson { at }) => println!(rt; "no JSON at {at}"),
        Err(JsonFault::TooDeep { at }) => println!(rt; "too deep at {at}"),
        Err(JsonFault::Memory) => println!(rt; "no memory"),
    }
}
