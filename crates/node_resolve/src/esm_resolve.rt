//! A specifier in a file (Node.js, ECMAScript modules: ESM_RESOLVE).
ghost use Rattle.std.specs.Prelude.{◌≡◌, ◌+◌, true, IfOk};
ghost use Rattle.url_spec.specs.Specifiers.{is_relative};
ghost use Rattle.node_spec.specs.EsmResolve as spec;
ghost use Rattle.node_spec.specs.FileLooks.{check_url, without_host};
ghost use Rattle.node_spec.specs.Resolution.{joined_url};
ghost use Rattle.package_lookup.specs.Answered.{Answered};
ghost use Rattle.package_lookup.specs.Lookups.{begun_of, state_of, IsSameLookup};
ghost use Rattle.package_lookup.specs.Responses.{itself};
ghost use Rattle.node_resolve.specs.Places.{module_of};
ghost use Rattle.node_resolve.specs.Responses.{responded, Gives};

use crate::NodeFault;
use crate::file_urls::{check_url, join};
use crate::found::{Found, copy_paths};
use crate::package_imports_resolve::imports_resolve;
use crate::package_resolve::package_resolve;
use crate::places::judged;
use crate::texts::begins;
use condition_match::Conditions;
use node_spec::Cause;
use package_lookup::{Lookup, folder_of};
use shared_types::Steps;
use std::alloc::Global;
use std::sync::ledger::Ledger;
use tree_model::{Folder, Path};
use web_url::{FileUrl, Scheme, file_url, is_relative, scheme_of};

/// The module that a specifier gives in the file at the path `parent`, by Node's resolution. It begins a question,
/// whose paths are the footprint, and takes one step.
pub fn resolve<F: Folder, L: Ledger>(
    lookup: &mut Lookup<'_, F>,
    parent: &Path,
    specifier: &str,
    conditions: &Conditions,
    steps: &mut Steps<L>,
) -> Result<Found, NodeFault>
    ensures answered { Answered (begun_of F.state lookup.old)
        (spec.node conditions.now parent.now specifier.now)
        (responded module_of result) (state_of F.state lookup.new) }
    ensures footprint { IfOk result (λ found. found.footprint ≡ lookup.new.trail.now.question) }
    ensures cost { steps.new ≡ steps.old + 1 }
    ensures same { IsSameLookup lookup.old lookup.new }
{
    steps.tick();
    lookup.trail.begin();
    match specifier_url(lookup, parent, specifier, conditions) {
        Err(fault) => Err(fault),
        Ok(url) => found_at(lookup, &url),
    }
}

/// The module at a URL, with the paths of the question.
fn found_at<F: Folder>(lookup: &mut Lookup<'_, F>, url: &FileUrl) -> Result<Found, NodeFault>
    ensures answered { Answered (state_of F.state lookup.old) (spec.judged url.now)
        (responded module_of result) (state_of F.state lookup.new) }
    ensures footprint { IfOk result (λ found. found.footprint ≡ lookup.new.trail.now.question) }
    ensures same { IsSameLookup lookup.old lookup.new }
{
    match judged(lookup, url) {
        Err(fault) => Err(fault),
        Ok((path, suffix)) => Ok(Found {
            path,
            suffix,
            footprint: copy_paths(lookup.alloc, lookup.trail.question())?,
        }),
    }
}

/// The URL of a specifier.
fn specifier_url<F: Folder>(
    lookup: &mut Lookup<'_, F>,
    parent: &Path,
    specifier: &str,
    conditions: &Conditions,
) -> Result<FileUrl, NodeFault>
    ensures answered { Answered (state_of F.state lookup.old)
        (spec.specifier_url conditions.now parent.now specifier.now)
        (responded itself result) (state_of F.state lookup.new) }
    ensures same { IsSameLookup lookup.old lookup.new }
{
    match scheme_of(lookup.alloc, specifier)? {
        Scheme::Node => Err(NodeFault::Refused(Cause::Builtin)),
        Scheme::Other => Err(NodeFault::Refused(Cause::ExternalUrl)),
        Scheme::NotUrl => no_url(lookup, parent, specifier, conditions),
    }
}

/// The URL of a specifier that isn't one itself.
fn no_url<F: Folder>(
    lookup: &mut Lookup<'_, F>,
    parent: &Path,
    specifier: &str,
    conditions: &Conditions,
) -> Result<FileUrl, NodeFault>
    ensures answered { Answered (state_of F.state lookup.old)
        (spec.no_url conditions.now parent.now specifier.now)
        (responded itself result) (state_of F.state lookup.new) }
    ensures same { IsSameLookup lookup.old lookup.new }
{
    if is_relative(specifier) {
        return relative_url(lookup.alloc, parent, specifier);
    }
    let from = folder_of(lookup.alloc, parent)?;
    if begins(specifier, "#") {
        imports_resolve(lookup, &from, specifier, conditions)
    } else {
        package_resolve(lookup, &from, specifier, conditions)
    }
}

/// The URL of a relative specifier.
fn relative_url(alloc: Global, parent: &Path, specifier: &str) -> Result<FileUrl, NodeFault>
    requires { is_relative specifier.now ≡ true }
    ensures { Gives itself (check_url (without_host (joined_url parent.now specifier.now))) result }
{
    let base = file_url(alloc, parent, false)?;
    let _is_url = base.as_str();
    check_url(join(alloc, &base, specifier)?)
}
