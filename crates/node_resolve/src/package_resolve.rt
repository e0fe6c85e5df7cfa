//! A bare specifier from a folder (Node.js, ECMAScript modules: PACKAGE_RESOLVE).
ghost use Rattle.std.specs.Prelude.{◌≡◌, false, Some, option_map};
ghost use Rattle.node_spec.specs.PackageResolve as spec;
ghost use Rattle.ordered_json.specs.Shown.{json_of};
ghost use Rattle.package_lookup.specs.Answered.{Answered};
ghost use Rattle.package_lookup.specs.Lookups.{state_of, IsSameLookup};
ghost use Rattle.package_lookup.specs.Responses.{itself};
ghost use Rattle.package_record.specs.Indexed.{IsSubpaths};
ghost use Rattle.package_record.specs.Shown.{record_shown};
ghost use Rattle.node_resolve.specs.Asked.{subpath_of, IsSubpath};
ghost use Rattle.node_resolve.specs.Responses.{responded, Gives};

use crate::NodeFault;
use crate::builtin_names::is_builtin;
use crate::fault::behind;
use crate::file_urls::{folder_url, inside, join};
use crate::legacy_main_resolve::main_file;
use crate::package_exports_resolve::exported;
use crate::package_name::{Subpath, is_package_name};
use crate::package_self_resolve::{is_null, package_self_resolve};
use crate::texts::{ends_in_slash, same};
use condition_match::Conditions;
use node_spec::Cause;
use package_lookup::{Lookup, find_package, record_under};
use package_record::Package;
use tree_model::{Folder, Path};
use web_url::FileUrl;

/// The URL of a bare specifier, for a module in a folder.
pub fn package_resolve<F: Folder>(
    lookup: &mut Lookup<'_, F>,
    from: &Path,
    text: &str,
    conditions: &Conditions,
) -> Result<FileUrl, NodeFault>
    ensures answered { Answered (state_of F.state lookup.old)
        (spec.package_resolve conditions.now from.now text.now)
        (responded itself result) (state_of F.state lookup.new) }
    ensures same { IsSameLookup lookup.old lookup.new }
{
    if same(text, "") {
        return Err(NodeFault::Refused(Cause::InvalidSpecifier));
    }
    if is_builtin(text) {
        return Err(NodeFault::Refused(Cause::Builtin));
    }
    if ends_in_slash(text) {
        return Err(NodeFault::Refused(Cause::InvalidSpecifier));
    }
    match Subpath::of(lookup.alloc, text)? {
        None => Err(NodeFault::Refused(Cause::InvalidSpecifier)),
        Some(asked) => resolve_name(lookup, from, &asked, conditions),
    }
}

/// The URL of a package's name with a subpath: the package itself goes before every `node_modules`.
fn resolve_name<F: Folder>(
    lookup: &mut Lookup<'_, F>,
    from: &Path,
    asked: &Subpath<'_>,
    conditions: &Conditions,
) -> Result<FileUrl, NodeFault>
    requires { IsSubpath asked.now.subpath }
    ensures answered { Answered (state_of F.state lookup.old)
        (spec.by_name conditions.now from.now (subpath_of asked.now))
        (responded itself result) (state_of F.state lookup.new) }
    ensures same { IsSameLookup lookup.old lookup.new }
{
    if !is_package_name(asked.name) {
        return Err(NodeFault::Refused(Cause::InvalidSpecifier));
    }
    match package_self_resolve(lookup, from, asked, conditions) {
        Err(fault) => Err(fault),
        Ok(Some(url)) => Ok(url),
        Ok(None) => resolve_in_modules(lookup, from, asked, conditions),
    }
}

/// The same where the package isn't the one that asks.
fn resolve_in_modules<F: Folder>(
    lookup: &mut Lookup<'_, F>,
    from: &Path,
    asked: &Subpath<'_>,
    conditions: &Conditions,
) -> Result<FileUrl, NodeFault>
    requires { IsSubpath asked.now.subpath }
    ensures answered { Answered (state_of F.state lookup.old)
        (spec.in_modules conditions.now from.now (subpath_of asked.now))
        (responded itself result) (state_of F.state lookup.new) }
    ensures same { IsSameLookup lookup.old lookup.new }
{
    match find_package(lookup, from, asked.name) {
        Err(fault) => Err(behind(fault)),
        Ok(None) => Err(NodeFault::Refused(Cause::NotFound)),
        Ok(Some(package_folder)) => resolve_in_folder(
            lookup,
            &package_folder,
            asked.subpath.as_str(),
            conditions,
        ),
    }
}

/// The URL of a subpath of the package in a folder.
fn resolve_in_folder<F: Folder>(
    lookup: &mut Lookup<'_, F>,
    package_folder: &Path,
    subpath: &str,
    conditions: &Conditions,
) -> Result<FileUrl, NodeFault>
    requires { IsSubpath subpath.now }
    ensures answered { Answered (state_of F.state lookup.old)
        (spec.in_folder conditions.now subpath.now (Some package_folder.now))
        (responded itself result) (state_of F.state lookup.new) }
    ensures same { IsSameLookup lookup.old lookup.new }
{
    match record_under(lookup, package_folder, conditions) {
        Err(fault) => Err(behind(fault)),
        Ok(None) => resolve_file(lookup, package_folder, subpath, None),
        Ok(Some(of_package)) => resolve_by_record(
            lookup,
            package_folder,
            subpath,
            &of_package,
            conditions,
        ),
    }
}

fn resolve_by_record<F: Folder>(
    lookup: &mut Lookup<'_, F>,
    package_folder: &Path,
    subpath: &str,
    of_package: &Package,
    conditions: &Conditions,
) -> Result<FileUrl, NodeFault>
    requires names { IsSubpaths false of_package.now.exports }
    requires subpath { IsSubpath subpath.now }
    ensures answered { Answered (state_of F.state lookup.old)
        (spec.by_record conditions.now package_folder.now subpath.now (Some (record_shown of_package.now)))
        (responded itself result) (state_of F.state lookup.new) }
    ensures same { IsSameLookup lookup.old lookup.new }
{
    if !is_null(&of_package.exports.value) {
        return exported(
            lookup.alloc,
            package_folder,
            subpath,
            &of_package.exports,
            conditions,
        );
    }
    match &of_package.main {
        None => resolve_file(lookup, package_folder, subpath, None),
        Some(main) => resolve_file(lookup, package_folder, subpath, Some(main.as_str())),
    }
}

/// The URL of a subpath in a package without exports.
fn resolve_file<F: Folder>(
    lookup: &mut Lookup<'_, F>,
    package_folder: &Path,
    subpath: &str,
    main: Option<&str>,
) -> Result<FileUrl, NodeFault>
    requires { IsSubpath subpath.now }
    ensures answered { Answered (state_of F.state lookup.old)
        (spec.by_files package_folder.now subpath.now (option_map (λ text. text.now) main.entry))
        (responded itself result) (state_of F.state lookup.new) }
    ensures same { IsSameLookup lookup.old lookup.new }
{
    if same(subpath, ".") {
        return main_file(lookup, package_folder, main);
    }
    let base = folder_url(lookup.alloc, package_folder)?;
    let found = join(lookup.alloc, &base, subpath)?;
    inside(&base, found)
}
