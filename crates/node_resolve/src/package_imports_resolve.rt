//! A specifier that begins with `#` (Node.js, ECMAScript modules: PACKAGE_IMPORTS_RESOLVE).
ghost use Rattle.std.specs.Prelude.{◌≡◌, Some, ◌||◌, true, codes, bytes_eq};
ghost use Rattle.package_record.specs.Indexed.{IsSubpaths};
ghost use Rattle.url_spec.specs.Specifiers.{begins, ends_in_slash};
ghost use Rattle.node_spec.specs.PackageImportsExportsResolve.{by_key};
ghost use Rattle.node_spec.specs.PackageImportsResolve as spec;
ghost use Rattle.ordered_json.specs.Lists.{pairs_of};
ghost use Rattle.ordered_json.specs.Shown.{json_of, members_of};
ghost use Rattle.package_lookup.specs.Answered.{Answered};
ghost use Rattle.package_lookup.specs.Lookups.{state_of, IsSameLookup};
ghost use Rattle.package_lookup.specs.Responses.{itself};
ghost use Rattle.node_resolve.specs.Responses.{responded};

use crate::NodeFault;
use crate::bare_texts::import_target;
use crate::fault::behind;
use crate::package_imports_exports_resolve::target_of;
use crate::texts::{begins, ends_in_slash};
use condition_match::Conditions;
use node_spec::Cause;
use ordered_json::{Members, Value};
use package_lookup::{Lookup, record_under, scope_of};
use package_record::Subpaths;
use tree_model::{Folder, Path};
use web_url::FileUrl;

/// The URL that the package scope of a folder gives for a specifier that begins with `#`.
pub fn imports_resolve<F: Folder>(
    lookup: &mut Lookup<'_, F>,
    from: &Path,
    text: &str,
    conditions: &Conditions,
) -> Result<FileUrl, NodeFault>
    ensures answered { Answered (state_of F.state lookup.old)
        (spec.imports_resolve conditions.now from.now text.now)
        (responded itself result) (state_of F.state lookup.new) }
    ensures same { IsSameLookup lookup.old lookup.new }
{
    if is_refused(text) {
        return Err(NodeFault::Refused(Cause::InvalidSpecifier));
    }
    match scope_of(lookup, from) {
        Err(fault) => Err(behind(fault)),
        Ok(None) => Err(NodeFault::Refused(Cause::ImportNotDefined)),
        Ok(Some(scope)) => imported_at(lookup, &scope, text, conditions),
    }
}

/// Whether no key of `imports` may be asked for by this text.
fn is_refused(text: &str) -> bool
    ensures { result ≡ (bytes_eq text.now (codes "#")
        || (begins text.now (codes "#/") || ends_in_slash text.now)) }
{
    text == "#" || begins(text, "#/") || ends_in_slash(text)
}

fn imported_at<F: Folder>(
    lookup: &mut Lookup<'_, F>,
    scope: &Path,
    text: &str,
    conditions: &Conditions,
) -> Result<FileUrl, NodeFault>
    ensures answered { Answered (state_of F.state lookup.old)
        (spec.imported_at conditions.now text.now (Some scope.now))
        (responded itself result) (state_of F.state lookup.new) }
    ensures same { IsSameLookup lookup.old lookup.new }
{
    match record_under(lookup, scope, conditions) {
        Err(fault) => Err(behind(fault)),
        Ok(None) => Err(NodeFault::Refused(Cause::ImportNotDefined)),
        Ok(Some(of_scope)) => imported(lookup, scope, text, &of_scope.imports, conditions),
    }
}

/// The URL by the `imports` of the package at a folder.
fn imported<F: Folder>(
    lookup: &mut Lookup<'_, F>,
    scope: &Path,
    text: &str,
    imports: &Subpaths,
    conditions: &Conditions,
) -> Result<FileUrl, NodeFault>
    requires { IsSubpaths true imports.now }
    ensures answered { Answered (state_of F.state lookup.old)
        (spec.imported conditions.now scope.now text.now (json_of imports.now.value))
        (responded itself result) (state_of F.state lookup.new) }
    ensures same { IsSameLookup lookup.old lookup.new }
{
    match &imports.value {
        Value::Object(members) => { import_at(lookup, scope, text, imports, members, conditions) }
        Value::Null => Err(NodeFault::Refused(Cause::ImportNotDefined)),
        Value::Bool(_) => Err(NodeFault::Refused(Cause::ImportNotDefined)),
        Value::Number(_) => Err(NodeFault::Refused(Cause::ImportNotDefined)),
        Value::Text(_) => Err(NodeFault::Refused(Cause::ImportNotDefined)),
        Value::List(_) => Err(NodeFault::Refused(Cause::ImportNotDefined)),
    }
}

/// The URL of the target of the key that is taken.
fn import_at<F: Folder>(
    lookup: &mut Lookup<'_, F>,
    scope: &Path,
    text: &str,
    imports: &Subpaths,
    members: &Members,
    conditions: &Conditions,
) -> Result<FileUrl, NodeFault>
    requires subpaths { IsSubpaths true imports.now }
    requires object { imports.now.value ≡ Value.Object members.now }
    ensures answered { Answered (state_of F.state lookup.old)
        (by_key (spec.import_paths conditions.now scope.now (members_of (pairs_of members.now))) text.now)
        (responded itself result) (state_of F.state lookup.new) }
    ensures same { IsSameLookup lookup.old lookup.new }
{
    match target_of(lookup.alloc, imports, members, text, conditions) {
        Err(_) => Err(NodeFault::Memory),
        Ok(None) => Err(NodeFault::Refused(Cause::ImportNotDefined)),
        Ok(Some((target, star))) => import_target(lookup, scope, target, star, conditions),
    }
}
