//! What a target gives (Node.js, ECMAScript modules: PACKAGE_TARGET_RESOLVE).
ghost use Rattle.std.specs.Prelude.{◌≡◌, true, false, codes, option_map, ⊤};
ghost use Rattle.node_spec.specs.FileLooks.{check_url, url_in};
ghost use Rattle.node_spec.specs.PackageTargetResolve.{no_bares, package_target};
ghost use Rattle.node_spec.specs.Laws.{BeginsWithDotSlash};
ghost use Rattle.node_spec.specs.declared.Cause.TheVariants.{NotExported};
ghost use Rattle.ordered_json.specs.Shown.{json_of};
ghost use Rattle.condition_match.specs.Choosing.{judged_by};
ghost use Rattle.condition_match.specs.Reducing.{ComesAs};
ghost use Rattle.json_spec.specs.Value.{Json};
ghost use Rattle.url_spec.specs.Specifiers.{begins};
ghost use Rattle.package_lookup.specs.Responses.{itself};
ghost use Rattle.node_resolve.specs.Responses.{Gives};
ghost use Rattle.node_resolve.specs.Targets.{own_url};

use crate::NodeFault;
use crate::file_urls::{check_url, folder_url, join};
use condition_match::{BareTarget, Conditions, choose};
use node_spec::{BareAnswer, Cause, Outcome};
use ordered_json::Value;
use shared_types::Memory;
use std::alloc::Global;
use tree_model::Path;
use web_url::FileUrl;

/// Answers the bare texts of a target in `exports`, which asks for none.
#[derive(Drop)]
struct NoBares;

impl BareTarget for NoBares {
    ghost gives = { λ old text answer new. ⊤ };

    ghost fails = { λ old text new. ⊤ };

    fn bare(&mut self, _alloc: Global, _text: &str) -> Result<BareAnswer, Memory> {
        Ok(BareAnswer::InvalidTarget)
    }
}

/// The URL that a target in `exports` gives in the package at a folder, by what is left of it.
pub fn export_target(
    alloc: Global,
    package_folder: &Path,
    target: &Value,
    star: Option<&str>,
    conditions: &Conditions,
) -> Result<FileUrl, NodeFault>
    ensures { (given : Json) → ComesAs conditions.now false given (json_of target.now)
        → Gives itself (package_target no_bares
        (judged_by conditions.now (option_map (λ part. part.now) star.entry) false)
        package_folder.now NotExported given) result }
{
    let outcome = choose(alloc, target, conditions, star, false, &mut NoBares)?;
    own_url(alloc, package_folder, Cause::NotExported, outcome)
}

/// The URL of what a target comes to by itself; `nothing` is the cause where it gives nothing.
pub(crate) fn own_url(
    alloc: Global,
    package_folder: &Path,
    nothing: Cause,
    outcome: Outcome,
) -> Result<FileUrl, NodeFault>
    requires { BeginsWithDotSlash outcome }
    ensures { Gives itself (own_url package_folder.now nothing outcome) result }
{
    match outcome {
        Outcome::Place(text) => place_url(alloc, package_folder, text.as_str()),
        Outcome::Undefined => Err(NodeFault::Refused(nothing)),
        Outcome::Null => Err(NodeFault::Refused(nothing)),
        Outcome::InvalidSpecifier => Err(NodeFault::Refused(Cause::InvalidSpecifier)),
        Outcome::InvalidConfig => Err(NodeFault::Refused(Cause::InvalidConfig)),
        Outcome::InvalidTarget => Err(NodeFault::Refused(Cause::InvalidTarget)),
        Outcome::Bare => Err(NodeFault::Refused(Cause::InvalidTarget)),
        Outcome::Stopped => Err(NodeFault::Refused(Cause::InvalidTarget)),
    }
}

/// The URL of a text that begins with `./`, in the package at a folder.
fn place_url(alloc: Global, package_folder: &Path, text: &str) -> Result<FileUrl, NodeFault>
    requires { begins text.now (codes "./") ≡ true }
    ensures { Gives itself (check_url (url_in package_folder.now text.now)) result }
{
    let base = folder_url(alloc, package_folder)?;
    check_url(join(alloc, &base, text)?)
}
