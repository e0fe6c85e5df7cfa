//! What a package exports (Node.js, ECMAScript modules: PACKAGE_EXPORTS_RESOLVE).
ghost use Rattle.std.specs.Prelude.{◌≡◌, ◌&&◌, not, false, codes, MatchOption};
ghost use Rattle.node_spec.specs.Records.{field};
ghost use Rattle.json_spec.specs.Value.{a_null};
ghost use Rattle.condition_match.specs.Reducing.{ComesAs};
ghost use Rattle.package_record.specs.Indexed.{IsSubpaths};
ghost use Rattle.node_spec.specs.PackageExportsResolve.{exported, export_paths, main_export};
ghost use Rattle.node_spec.specs.PackageExportsResolve.{main_target, is_mixed_object, subpath_export};
ghost use Rattle.node_spec.specs.PackageImportsExportsResolve.{by_key};
ghost use Rattle.ordered_json.specs.Lists.{pairs_of};
ghost use Rattle.ordered_json.specs.Shown.{json_of, members_of};
ghost use Rattle.package_lookup.specs.Responses.{itself};
ghost use Rattle.node_resolve.specs.Members.{json_in};
ghost use Rattle.node_resolve.specs.Responses.{Gives};

use crate::NodeFault;
use crate::package_imports_exports_resolve::target_of;
use crate::package_target_resolve::export_target;
use condition_match::Conditions;
use exports_patterns::place_of;
use node_spec::Cause;
use ordered_json::{Members, Value};
use package_record::{Index, Subpaths};
use std::alloc::Global;
use tree_model::Path;
use web_url::FileUrl;

/// The URL that the package at a folder gives for a subpath, which is `.` or begins with `./`.
pub fn exported(
    alloc: Global,
    package_folder: &Path,
    subpath: &str,
    exports: &Subpaths,
    conditions: &Conditions,
) -> Result<FileUrl, NodeFault>
    requires { IsSubpaths false exports.now }
    ensures { Gives itself (exported conditions.now package_folder.now subpath.now (json_of exports.now.value)) result }
{
    if is_mixed_object(exports) {
        return Err(NodeFault::Refused(Cause::InvalidConfig));
    }
    if subpath == "." {
        main_export(alloc, package_folder, exports, conditions)
    } else {
        subpath_export(alloc, package_folder, subpath, exports, conditions)
    }
}

fn is_mixed_object(exports: &Subpaths) -> bool
    requires { IsSubpaths false exports.now }
    ensures { result ≡ is_mixed_object (json_of exports.now.value) }
{
    match &exports.value {
        Value::Object(_) => is_mixed(&exports.index),
        Value::Null => false,
        Value::Bool(_) => false,
        Value::Number(_) => false,
        Value::Text(_) => false,
        Value::List(_) => false,
    }
}

/// Whether some keys begin with `.` and some don't.
fn is_mixed(index: &Index) -> bool
    ensures { result ≡ (index.now.has_dotted && not index.now.are_dotted) }
{
    index.has_dotted && !index.are_dotted
}

/// The URL for the subpath `.`.
fn main_export(
    alloc: Global,
    package_folder: &Path,
    exports: &Subpaths,
    conditions: &Conditions,
) -> Result<FileUrl, NodeFault>
    requires { IsSubpaths false exports.now }
    ensures { Gives itself (main_export conditions.now package_folder.now (json_of exports.now.value)) result }
{
    match &exports.value {
        Value::Null => Err(NodeFault::Refused(Cause::NotExported)),
        Value::Bool(_) => Err(NodeFault::Refused(Cause::NotExported)),
        Value::Number(_) => Err(NodeFault::Refused(Cause::NotExported)),
        Value::Text(_) => whole_export(alloc, package_folder, exports, conditions),
        Value::List(_) => whole_export(alloc, package_folder, exports, conditions),
        Value::Object(members) => {
            if exports.index.has_dotted {
                dot_export(alloc, package_folder, exports, members, conditions)
            } else {
                whole_export(alloc, package_folder, exports, conditions)
            }
        }
    }
}

/// The URL of the value as a target.
fn whole_export(
    alloc: Global,
    package_folder: &Path,
    exports: &Subpaths,
    conditions: &Conditions,
) -> Result<FileUrl, NodeFault>
    requires { IsSubpaths false exports.now }
    ensures { Gives itself (main_target conditions.now package_folder.now (json_of exports.now.value)) result }
{
    let target = exports.as_target(conditions);
    export_target(alloc, package_folder, target, None, conditions)
}

/// The URL of the member `.`.
fn dot_export(
    alloc: Global,
    package_folder: &Path,
    exports: &Subpaths,
    members: &Members,
    conditions: &Conditions,
) -> Result<FileUrl, NodeFault>
    requires subpaths { IsSubpaths false exports.now }
    requires object { exports.now.value ≡ Value.Object members.now }
    ensures { Gives itself (main_target conditions.now package_folder.now
        (field (codes ".") (members_of (pairs_of members.now)))) result }
{
    match dot_of(exports, members, conditions) {
        None => export_target(alloc, package_folder, &Value::Null, None, conditions),
        Some(target) => export_target(alloc, package_folder, target, None, conditions),
    }
}

/// The value of the member `.`, or what is left of it.
fn dot_of<'a>(
    exports: &'a Subpaths,
    members: &'a Members,
    conditions: &Conditions,
) -> Option<&'a Value>
    requires subpaths { IsSubpaths false exports.now }
    requires object { exports.now.value ≡ Value.Object members.now }
    ensures { MatchOption result (field (codes ".") (members_of (pairs_of members.now)) ≡ a_null)
        (λ target. ComesAs conditions.now false (field (codes ".") (members_of (pairs_of members.now)))
        (json_of target.now)) }
{
    match place_of(&exports.index.keys, members, ".") {
        None => None,
        Some(place) => match members.at(place) {
            None => None,
            Some((_, target)) => Some(exports.target_at(place, target, conditions)),
        },
    }
}

/// The URL for another subpath.
fn subpath_export(
    alloc: Global,
    package_folder: &Path,
    subpath: &str,
    exports: &Subpaths,
    conditions: &Conditions,
) -> Result<FileUrl, NodeFault>
    requires { IsSubpaths false exports.now }
    ensures { Gives itself (subpath_export conditions.now package_folder.now subpath.now (json_in exports.now)) result }
{
    match &exports.value {
        Value::Object(members) => {
            if exports.index.are_dotted {
                export_at(alloc, package_folder, subpath, exports, members, conditions)
            } else {
                Err(NodeFault::Refused(Cause::NotExported))
            }
        }
        Value::Null => Err(NodeFault::Refused(Cause::NotExported)),
        Value::Bool(_) => Err(NodeFault::Refused(Cause::NotExported)),
        Value::Number(_) => Err(NodeFault::Refused(Cause::NotExported)),
        Value::Text(_) => Err(NodeFault::Refused(Cause::NotExported)),
        Value::List(_) => Err(NodeFault::Refused(Cause::NotExported)),
    }
}

/// The URL of the target of the key that is taken.
fn export_at(
    alloc: Global,
    package_folder: &Path,
    subpath: &str,
    exports: &Subpaths,
    members: &Members,
    conditions: &Conditions,
) -> Result<FileUrl, NodeFault>
    requires subpaths { IsSubpaths false exports.now }
    requires object { exports.now.value ≡ Value.Object members.now }
    ensures { Gives itself (by_key (export_paths conditions.now package_folder.now (members_of (pairs_of members.now)))
        subpath.now) result }
{
    match target_of(alloc, exports, members, subpath, conditions) {
        Err(_) => Err(NodeFault::Memory),
        Ok(None) => Err(NodeFault::Refused(Cause::NotExported)),
        Ok(Some((target, star))) => export_target(alloc, package_folder, target, star, conditions),
    }
}
