ghost use Rattle.std.specs.Prelude.{◌≡◌, IfOk};
ghost use Rattle.ordered_json.specs.Lists.{pairs_of};
ghost use Rattle.ordered_json.specs.Shown.{json_of, members_of};
ghost use Rattle.json_spec.specs.Value.{a_member, Members as Spec};
ghost use Rattle.package_record.specs.Fields.{HoldsFields};

use ordered_json::{Members, Value};
use shared_types::Memory;

/// The values of the fields that are looked for, null where a field is absent.
#[derive(Drop)]
pub struct Fields {
    pub name: Value,
    pub kind: Value,
    pub main: Value,
    pub exports: Value,
    pub imports: Value,
}

/// The fields among an object's members.
pub fn fields_of(members: Members) -> Result<Fields, Memory>
    ensures { IfOk result (λ fields. HoldsFields fields (members_of (pairs_of members))) }
{
    let mut fields = Fields {
        name: Value::Null,
        kind: Value::Null,
        main: Value::Null,
        exports: Value::Null,
        imports: Value::Null,
    };
    let mut pairs = members.into_pairs()?;
    while let Some((key, value)) = pairs.pop() {
        fields = with_member(fields, key.as_str(), value);
    }
    Ok(fields)
}

// The fields, where one more member stands before those that were looked at.
fn with_member(fields: Fields, key: &str, value: Value) -> Fields
    ensures { (more : Spec) → HoldsFields fields more → HoldsFields result (a_member key.now (json_of value) more) }
{
    let mut fields = fields;
    if key == "name" {
        fields.name = value;
    } else if key == "type" {
        fields.kind = value;
    } else if key == "main" {
        fields.main = value;
    } else if key == "exports" {
        fields.exports = value;
    } else if key == "imports" {
        fields.imports = value;
    }
    fields
}
