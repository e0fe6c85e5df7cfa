ghost use Rattle.std.specs.Prelude.{◌≡◌, Ok, MatchResult, option_map};
ghost use Rattle.import_map_spec.specs.Parsing as definition;
ghost use Rattle.import_map_spec.specs.Parsing.{map_of_members, parsed_map, ParsesMap};
ghost use Rattle.ordered_json.specs.Lists.{pairs_of};
ghost use Rattle.ordered_json.specs.Shown.{json_of, members_of};
ghost use Rattle.map_parse.specs.Faults.{FailsPart, IsMapFault};

use crate::integrity::integrity_of;
use crate::parts::parts_of;
use crate::scopes::scopes_of;
use crate::{Addresses, MapFault, MapPart, ParsedMap};
use ordered_json::{JsonFault, Members, Value, read};
use std::alloc::Global;
use web_url::WebUrl;

/// The map of a text (HTML, import maps: parse an import map string), or its first fault.
pub fn parse_map(alloc: Global, bytes: &[u8], base: &WebUrl) -> Result<ParsedMap, MapFault>
    ensures { MatchResult result (λ map. ParsesMap base.now bytes.now (Ok map)) (IsMapFault base.now bytes.now) }
{
    match read(alloc, bytes) {
        Ok(value) => map_of_value(alloc, base, value),
        Err(JsonFault::NotJson { at }) => Err(MapFault::NotJson { at }),
        Err(JsonFault::TooDeep { at }) => Err(MapFault::TooDeep { at }),
        Err(JsonFault::Memory) => Err(MapFault::Memory),
    }
}

#[tactic(auto, using(crate::proofs::FaultLemmas::faults), unfolding(import_map_spec::specs::Parsing::parsed_map))]
fn map_of_value(alloc: Global, base: &WebUrl, value: Value) -> Result<ParsedMap, MapFault>
    ensures { MatchResult result (λ map. parsed_map base.now (json_of value) ≡ Ok map)
        (λ fault. FailsPart fault (parsed_map base.now (json_of value))) }
{
    match value {
        Value::Object(members) => map_of_members(alloc, base, members),
        _ => Err(MapFault::NotObject {
            which: MapPart::Top,
        }),
    }
}

fn map_of_members(alloc: Global, base: &WebUrl, members: Members) -> Result<ParsedMap, MapFault>
    ensures { MatchResult result (λ map. map_of_members base.now (members_of (pairs_of members)) ≡ Ok map)
        (λ fault. FailsPart fault (map_of_members base.now (members_of (pairs_of members)))) }
{
    let Ok(parts) = parts_of(members) else {
        return Err(MapFault::Memory);
    };
    let imports = match object_in(alloc, MapPart::Imports, parts.imports) {
        Ok(members) => members,
        Err(fault) => return Err(fault),
    };
    let members = match object_in(alloc, MapPart::Scopes, parts.scopes) {
        Ok(members) => members,
        Err(fault) => return Err(fault),
    };
    let scopes = match scopes_of(alloc, base, members) {
        Ok(scopes) => scopes,
        Err(fault) => return Err(fault),
    };
    let integrity = match object_in(alloc, MapPart::Integrity, parts.integrity) {
        Ok(members) => members,
        Err(fault) => return Err(fault),
    };
    let Ok(imports) = Addresses::from_members(alloc, base, imports) else {
        return Err(MapFault::Memory);
    };
    let Ok(integrity) = integrity_of(alloc, base, integrity) else {
        return Err(MapFault::Memory);
    };
    Ok(ParsedMap {
        imports,
        scopes,
        integrity,
    })
}

// The members of a part, which must be an object where it is there.
#[tactic(auto, using(crate::proofs::FaultLemmas::faults))]
fn object_in(alloc: Global, which: MapPart, value: Option<Value>) -> Result<Members, MapFault>
    ensures { MatchResult result
        (λ members. definition.object_in which (option_map json_of value) ≡ Ok (members_of (pairs_of members)))
        (λ fault. FailsPart fault (definition.object_in which (option_map json_of value))) }
{
    match value {
        None => Ok(Members::new(alloc)),
        Some(Value::Object(members)) => Ok(members),
        Some(_) => Err(MapFault::NotObject { which }),
    }
}
