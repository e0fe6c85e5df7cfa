//! A package that names itself (Node.js, ECMAScript modules: PACKAGE_SELF_RESOLVE).
ghost use Rattle.std.specs.Prelude.{◌≡◌, ◌&&◌, not, false, Some};
ghost use Rattle.package_record.specs.Indexed.{IsSubpaths};
ghost use Rattle.package_record.specs.Shown.{record_shown};
ghost use Rattle.node_spec.specs.PackageSelfResolve.{has_name, is_null};
ghost use Rattle.ordered_json.specs.Shown.{json_of};
ghost use Rattle.package_lookup.specs.Answered.{Answered};
ghost use Rattle.package_lookup.specs.Lookups.{state_of, IsSameLookup};
ghost use Rattle.package_lookup.specs.Responses.{itself};
ghost use Rattle.node_resolve.specs.Asked.{subpath_of};
ghost use Rattle.node_resolve.specs.Responses.{responded, Gives};
ghost use Rattle.node_resolve.specs.SelfNamed.{named_itself, named_itself_at, named_itself_in};

use crate::NodeFault;
use crate::fault::behind;
use crate::package_exports_resolve::exported;
use crate::package_name::Subpath;
use condition_match::Conditions;
use ordered_json::Value;
use package_lookup::{Lookup, record_under, scope_of};
use package_record::Package;
use std::alloc::Global;
use tree_model::{Folder, Path};
use web_url::FileUrl;

/// The URL that the package scope of a folder gives for its own name, where it has that name and exports.
pub fn package_self_resolve<F: Folder>(
    lookup: &mut Lookup<'_, F>,
    from: &Path,
    asked: &Subpath<'_>,
    conditions: &Conditions,
) -> Result<Option<FileUrl>, NodeFault>
    ensures answered { Answered (state_of F.state lookup.old)
        (named_itself conditions.now from.now (subpath_of asked.now))
        (responded itself result) (state_of F.state lookup.new) }
    ensures same { IsSameLookup lookup.old lookup.new }
{
    match scope_of(lookup, from) {
        Err(fault) => Err(behind(fault)),
        Ok(None) => Ok(None),
        Ok(Some(scope)) => self_at(lookup, &scope, asked, conditions),
    }
}

fn self_at<F: Folder>(
    lookup: &mut Lookup<'_, F>,
    scope: &Path,
    asked: &Subpath<'_>,
    conditions: &Conditions,
) -> Result<Option<FileUrl>, NodeFault>
    ensures answered { Answered (state_of F.state lookup.old)
        (named_itself_at conditions.now (subpath_of asked.now) (Some scope.now))
        (responded itself result) (state_of F.state lookup.new) }
    ensures same { IsSameLookup lookup.old lookup.new }
{
    match record_under(lookup, scope, conditions) {
        Err(fault) => Err(behind(fault)),
        Ok(None) => Ok(None),
        Ok(Some(of_scope)) => self_in(lookup.alloc, scope, asked, &of_scope, conditions),
    }
}

fn self_in(
    alloc: Global,
    scope: &Path,
    asked: &Subpath<'_>,
    of_scope: &Package,
    conditions: &Conditions,
) -> Result<Option<FileUrl>, NodeFault>
    requires { IsSubpaths false of_scope.now.exports }
    ensures { Gives itself (named_itself_in conditions.now scope.now (subpath_of asked.now)
        (Some (record_shown of_scope.now))) result }
{
    if !names_itself(of_scope, asked.name) {
        return Ok(None);
    }
    match exported(
        alloc,
        scope,
        asked.subpath.as_str(),
        &of_scope.exports,
        conditions,
    ) {
        Err(fault) => Err(fault),
        Ok(url) => Ok(Some(url)),
    }
}

/// Whether a package has this name, and exports.
fn names_itself(of_scope: &Package, name: &str) -> bool
    ensures { result ≡ (has_name of_scope.now.name name.now && not (is_null (json_of of_scope.now.exports.value))) }
{
    has_name(of_scope, name) && !is_null(&of_scope.exports.value)
}

fn has_name(of_scope: &Package, name: &str) -> bool
    ensures { result ≡ has_name of_scope.now.name name.now }
{
    match &of_scope.name {
        None => false,
        Some(own) => own.as_str() == name,
    }
}

/// Whether a value is null, or absent.
pub fn is_null(value: &Value) -> bool
    ensures { result ≡ is_null (json_of value.now) }
{
    match value {
        Value::Null => true,
        Value::Bool(_) => false,
        Value::Number(_) => false,
        Value::Text(_) => false,
        Value::List(_) => false,
        Value::Object(_) => false,
    }
}
