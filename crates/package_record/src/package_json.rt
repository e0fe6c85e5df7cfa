ghost use Rattle.std.specs.Prelude.{◌≡◌, true, false, IfOk, MatchOption, MatchResult, Err};
ghost use Rattle.json_spec.specs.Value.{an_object, Members as Spec};
ghost use Rattle.node_spec.specs.Records.{InvalidRecord, after_mark, kind_of, record_in, record_of};
ghost use Rattle.node_spec.specs.Records.{text_in};
ghost use Rattle.ordered_json.specs.Lists.{pairs_of};
ghost use Rattle.ordered_json.specs.Shown.{json_of, members_of};
ghost use Rattle.package_record.specs.Fields.{HoldsFields};
ghost use Rattle.package_record.specs.Indexed.{HasTargets};
ghost use Rattle.package_record.specs.Shown.{record_shown, IsReadFrom, IsNoRecord};

use crate::fields::{Fields, fields_of};
use crate::subpaths::Subpaths;
use condition_match::Conditions;
use node_spec::PackageKind;
use ordered_json::{JsonFault, Members, Text, Value, read};
use shared_types::Memory;
use std::alloc::Global;

/// How many bytes go over quickly at each request.
const FEW_BYTES: usize = 4096;

/// U+FEFF in UTF-8, the byte order mark.
const MARK: [u8; 3] = [239, 187, 191];

/// The fields of a package.json (Node.js, Packages: Node.js package.json field definitions).
#[derive(Drop)]
pub struct Package {
    /// The `name`, where it is a string.
    pub name: Option<Text>,
    /// What the `type` says.
    pub kind: PackageKind,
    /// The `main`, where it is a string.
    pub main: Option<Text>,
    /// The `exports`.
    pub exports: Subpaths,
    /// The `imports`.
    pub imports: Subpaths,
}

/// Why the bytes of a package.json have no record.
#[derive(Clone, Copy, Debug, PartialEq, Eq)]
pub enum PackageFault {
    /// They are no JSON text, or its value is no object.
    InvalidConfig,
    /// Too many brackets are open at once.
    TooDeep,
    /// Want of memory.
    Memory,
}

/// The record of the bytes of a package.json. A byte order mark before the text is passed over.
pub fn read_package(alloc: Global, bytes: &[u8]) -> Result<Package, PackageFault>
    ensures { MatchResult result (IsReadFrom bytes.now) (IsNoRecord bytes.now) }
{
    read_package_under(alloc, bytes, None)
}

/// The same. Of many bytes it keeps what is left of the targets under the conditions, so that a request doesn't go over
/// all of them again.
pub fn read_package_under(
    alloc: Global,
    bytes: &[u8],
    conditions: Option<&Conditions>,
) -> Result<Package, PackageFault>
    ensures { MatchResult result (IsReadFrom bytes.now) (IsNoRecord bytes.now) }
{
    match read(alloc, behind_mark(bytes)) {
        Ok(value) => match members_in(value) {
            Some(members) => match fields_of(members) {
                Ok(fields) => match package_of(alloc, fields, asked_for(bytes, conditions)) {
                    Ok(package) => Ok(package),
                    Err(_) => Err(PackageFault::Memory),
                },
                Err(_) => Err(PackageFault::Memory),
            },
            None => Err(PackageFault::InvalidConfig),
        },
        Err(JsonFault::NotJson { .. }) => Err(PackageFault::InvalidConfig),
        Err(JsonFault::TooDeep { .. }) => Err(PackageFault::TooDeep),
        Err(JsonFault::Memory) => Err(PackageFault::Memory),
    }
}

/// Whether a record that was read of these bytes keeps what it would keep under these conditions.
pub fn is_ready(package: &Package, bytes: &[u8], conditions: &Conditions) -> bool {
    if bytes.len() <= FEW_BYTES {
        return true;
    }
    match &package.exports.left {
        None => false,
        Some(left) => left.conditions.is_same(conditions),
    }
}

// The conditions under which something is kept.
fn asked_for<'a>(bytes: &[u8], conditions: Option<&'a Conditions>) -> Option<&'a Conditions> {
    if bytes.len() <= FEW_BYTES {
        None
    } else {
        conditions
    }
}

fn behind_mark(bytes: &[u8]) -> &[u8]
    ensures { result.now ≡ after_mark bytes.now }
{
    match bytes.strip_prefix(&MARK) {
        Some(rest) => rest,
        None => bytes,
    }
}

fn members_in(value: Value) -> Option<Members>
    ensures { MatchOption result (record_in (json_of value) ≡ Err InvalidRecord)
        (λ members. json_of value ≡ an_object (members_of (pairs_of members))) }
{
    match value {
        Value::Object(members) => Some(members),
        _ => None,
    }
}

fn package_of(
    alloc: Global,
    fields: Fields,
    conditions: Option<&Conditions>,
) -> Result<Package, Memory>
    ensures shown { IfOk result (λ read. (members : Spec) → HoldsFields fields members
        → record_shown read ≡ record_of members) }
    ensures exports { IfOk result (λ read. HasTargets false read.exports) }
    ensures imports { IfOk result (λ read. HasTargets true read.imports) }
{
    let Fields {
        name,
        kind,
        main,
        exports,
        imports,
    } = fields;
    Ok(Package {
        name: text_of(name),
        kind: kind_named(text_of(kind)),
        main: text_of(main),
        exports: Subpaths::of(alloc, exports, conditions, false)?,
        imports: Subpaths::of(alloc, imports, conditions, true)?,
    })
}

fn text_of(value: Value) -> Option<Text>
    ensures { result ≡ text_in (json_of value) }
{
    match value {
        Value::Text(text) => Some(text),
        _ => None,
    }
}

fn kind_named(name: Option<Text>) -> PackageKind
    ensures { result ≡ kind_of name }
{
    let Some(name) = name else {
        return PackageKind::Unstated;
    };
    if name.as_str() == "module" {
        PackageKind::Module
    } else if name.as_str() == "commonjs" {
        PackageKind::CommonJs
    } else {
        PackageKind::Unstated
    }
}
