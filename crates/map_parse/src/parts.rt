ghost use Rattle.std.specs.Prelude.{◌≡◌, IfOk, option_map};
ghost use Rattle.json_spec.specs.Value.{a_member, Members as Spec};
ghost use Rattle.ordered_json.specs.Lists.{pairs_of};
ghost use Rattle.ordered_json.specs.Shown.{json_of, members_of};
ghost use Rattle.map_parse.specs.Parts.{HoldsParts};

use ordered_json::{Members, Value};
use shared_types::Memory;

/// The members of a map's text that count, those of them that are there.
#[derive(Drop)]
pub struct Parts {
    pub imports: Option<Value>,
    pub scopes: Option<Value>,
    pub integrity: Option<Value>,
}

/// The parts among an object's members.
pub fn parts_of(members: Members) -> Result<Parts, Memory>
    ensures { IfOk result (λ parts. HoldsParts parts (members_of (pairs_of members))) }
{
    let mut parts = Parts {
        imports: None,
        scopes: None,
        integrity: None,
    };
    let mut pairs = members.into_pairs()?;
    while let Some((key, value)) = pairs.pop() {
        parts = with_member(parts, key.as_str(), value);
    }
    Ok(parts)
}

// The parts, where one more member stands before those that were looked at.
fn with_member(mut parts: Parts, key: &str, value: Value) -> Parts
    ensures { (more : Spec) → HoldsParts parts more → HoldsParts result (a_member key.now (json_of value) more) }
{
    if key == "imports" {
        parts.imports = Some(value);
    } else if key == "scopes" {
        parts.scopes = Some(value);
    } else if key == "integrity" {
        parts.integrity = Some(value);
    }
    parts
}
