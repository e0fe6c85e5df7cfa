//! Targets in `imports`, which may name other packages (Node.js, ECMAScript modules: PACKAGE_TARGET_RESOLVE).
ghost use Rattle.std.specs.Prelude.{◌≡◌, true, None, IfOk, option_map};
ghost use Rattle.node_spec.specs.Laws.{BeginsWithDotSlash};
ghost use Rattle.node_spec.specs.PackageImportsResolve.{bares_from};
ghost use Rattle.node_spec.specs.PackageTargetResolve.{judge_bare, package_target, came};
ghost use Rattle.node_spec.specs.PackageTargetResolve.{last_found, target_comes, target_url};
ghost use Rattle.node_spec.specs.declared.Cause.TheVariants.{ImportNotDefined};
ghost use Rattle.ordered_json.specs.Shown.{json_of};
ghost use Rattle.condition_match.specs.Choosing.{judged_by};
ghost use Rattle.condition_match.specs.Reducing.{ComesAs};
ghost use Rattle.json_spec.specs.Value.{Json};
ghost use Rattle.package_lookup.specs.Answered.{Answered};
ghost use Rattle.package_lookup.specs.Lookups.{state_of, IsSameLookup};
ghost use Rattle.package_lookup.specs.Responses.{itself};
ghost use Rattle.node_resolve.specs.BareTexts.{chosen_shown, failing_of, found_shown};
ghost use Rattle.node_resolve.specs.BareTexts.{last_shown, lost_by, split_shown, KeepsNames};
ghost use Rattle.node_resolve.specs.Responses.{responded, Gives};

use crate::NodeFault;
use crate::package_resolve::package_resolve;
use crate::package_target_resolve::own_url;
use condition_match::{BareTarget, Conditions, choose};
use node_spec::{BareAnswer, Cause, Outcome};
use ordered_json::Value;
use package_lookup::Lookup;
use shared_types::Memory;
use std::alloc::Global;
use tree_model::{Folder, Path};
use tree_spec::LimitName;
use web_url::FileUrl;

/// Why a bare text has no URL.
#[derive(Clone, Copy, Debug, PartialEq, Eq)]
pub enum Refusal {
    ByCause(Cause),
    TooDeep,
}

/// Answers the bare texts of a target in `imports` from its package's folder. It keeps the answer to the last text, and
/// what kept a text from being answered.
#[derive(Drop)]
struct BareTexts<'a, 'b, F: Folder> {
    lookup: &'b mut Lookup<'a, F>,
    package_folder: &'b Path,
    conditions: &'b Conditions,
    last: &'b mut Option<Result<FileUrl, Refusal>>,
    fault: Option<NodeFault>,
}

impl<'a, 'b, F: Folder> BareTarget for BareTexts<'a, 'b, F> {
    ghost use Rattle.node_spec.specs.PackageResolve.{package_resolve};
    ghost use Rattle.node_resolve.specs.BareTexts.{kept, GivesBare, KeepsNames};
    ghost use Rattle.package_lookup.specs.Lookups.{state_of};

    ghost gives = { λ old text answer new. KeepsNames old new × (new.package_folder ≡ old.package_folder)
        × (new.conditions ≡ old.conditions)
        × GivesBare (package_resolve old.conditions.now old.package_folder.now)
        (kept (state_of F.state old.lookup.now) old.last.now old.fault) text answer
        (kept (state_of F.state new.lookup.now) new.last.now new.fault) };

    ghost fails = { λ old text new. ⊥ };

    fn bare(&mut self, alloc: Global, text: &str) -> Result<BareAnswer, Memory> {
        let resolved = package_resolve(self.lookup, self.package_folder, text, self.conditions);
        match found_of(resolved) {
            Ok(found) => {
                let answer = judge_bare(&found);
                *self.last = Some(found);
                Ok(answer)
            }
            Err(fault) => {
                self.fault = Some(fault);
                Ok(BareAnswer::Stop)
            }
        }
    }
}

/// The answer to a bare text, unless something kept it from being answered.
fn found_of(resolved: Result<FileUrl, NodeFault>) -> Result<Result<FileUrl, Refusal>, NodeFault>
    ensures { responded itself resolved ≡ split_shown result }
{
    match resolved {
        Ok(url) => Ok(Ok(url)),
        Err(NodeFault::Refused(cause)) => Ok(Err(Refusal::ByCause(cause))),
        Err(
            NodeFault::Limit {
                which: LimitName::Depth,
            },
        ) => Ok(Err(Refusal::TooDeep)),
        Err(fault) => Err(fault),
    }
}

/// What a target makes of the answer to a bare text.
fn judge_bare(found: &Result<FileUrl, Refusal>) -> BareAnswer
    ensures { result ≡ judge_bare (found_shown found.now) }
{
    match found {
        Ok(_) => BareAnswer::Found,
        Err(Refusal::ByCause(Cause::InvalidTarget)) => BareAnswer::InvalidTarget,
        Err(_) => BareAnswer::Stop,
    }
}

/// The URL that a target in `imports` gives in the package at a folder, by what is left of it.
pub fn import_target<F: Folder>(
    lookup: &mut Lookup<'_, F>,
    package_folder: &Path,
    target: &Value,
    star: Option<&str>,
    conditions: &Conditions,
) -> Result<FileUrl, NodeFault>
    ensures answered { (given : Json) → ComesAs conditions.now true given (json_of target.now)
        → Answered (state_of F.state lookup.old)
        (package_target (bares_from conditions.now package_folder.now)
        (judged_by conditions.now (option_map (λ part. part.now) star.entry) true)
        package_folder.now ImportNotDefined given)
        (responded itself result) (state_of F.state lookup.new) }
    ensures same { IsSameLookup lookup.old lookup.new }
{
    let mut last = None;
    match chosen(lookup, package_folder, target, star, conditions, &mut last) {
        Err(fault) => Err(fault),
        Ok(outcome) => url_of(lookup.alloc, package_folder, outcome, last),
    }
}

/// What a target comes to. The answer to the bare text that was asked for last is put into `last`.
fn chosen<F: Folder>(
    lookup: &mut Lookup<'_, F>,
    package_folder: &Path,
    target: &Value,
    star: Option<&str>,
    conditions: &Conditions,
    last: &mut Option<Result<FileUrl, Refusal>>,
) -> Result<Outcome, NodeFault>
    requires { last.now ≡ None }
    ensures answered { (given : Json) → ComesAs conditions.now true given (json_of target.now)
        → Answered (state_of F.state lookup.old)
        (target_comes (bares_from conditions.now package_folder.now)
        (judged_by conditions.now (option_map (λ part. part.now) star.entry) true) given None)
        (chosen_shown result last.new) (state_of F.state lookup.new) }
    ensures place { IfOk result BeginsWithDotSlash }
    ensures same { IsSameLookup lookup.old lookup.new }
{
    let alloc = lookup.alloc;
    let mut bares = BareTexts {
        lookup,
        package_folder,
        conditions,
        last,
        fault: None,
    };
    chosen_by(alloc, &mut bares, target, star, conditions)
}

/// The same by an object that was asked for nothing yet.
fn chosen_by<F: Folder>(
    alloc: Global,
    bares: &mut BareTexts<'_, '_, F>,
    target: &Value,
    star: Option<&str>,
    conditions: &Conditions,
) -> Result<Outcome, NodeFault>
    requires last { bares.now.last.now ≡ None }
    requires fault { bares.now.fault ≡ None }
    ensures names { KeepsNames bares.old bares.new }
    ensures answered { (given : Json) → ComesAs conditions.now true given (json_of target.now) → Answered
        (state_of F.state bares.old.lookup.now)
        (target_comes (bares_from bares.old.conditions.now bares.old.package_folder.now)
        (judged_by conditions.now (option_map (λ part. part.now) star.entry) true) given None)
        (chosen_shown result bares.new.last.now)
        (state_of F.state bares.new.lookup.now) }
    ensures place { IfOk result BeginsWithDotSlash }
{
    match choose(alloc, target, conditions, star, true, bares) {
        Err(_) => Err(lost(bares.fault)),
        Ok(outcome) => match bares.fault {
            Some(fault) => Err(fault),
            None => Ok(outcome),
        },
    }
}

/// Why a target comes to nothing where memory is wanting, unless a look had failed before.
fn lost(fault: Option<NodeFault>) -> NodeFault
    ensures { failing_of result ≡ lost_by (option_map failing_of fault) }
{
    match fault {
        Some(NodeFault::ReadFault) => NodeFault::ReadFault,
        _ => NodeFault::Memory,
    }
}

/// The URL by what a target comes to.
fn url_of(
    alloc: Global,
    package_folder: &Path,
    outcome: Outcome,
    last: Option<Result<FileUrl, Refusal>>,
) -> Result<FileUrl, NodeFault>
    requires { BeginsWithDotSlash outcome }
    ensures { Gives itself (target_url package_folder.now ImportNotDefined (came outcome (last_shown last))) result }
{
    match outcome {
        Outcome::Bare => last_url(last),
        Outcome::Stopped => last_url(last),
        own => own_url(alloc, package_folder, Cause::ImportNotDefined, own),
    }
}

/// The URL that was found last, or why there is none.
fn last_url(last: Option<Result<FileUrl, Refusal>>) -> Result<FileUrl, NodeFault>
    ensures { Gives itself (last_found (last_shown last)) result }
{
    match last {
        None => Err(NodeFault::Refused(Cause::InvalidTarget)),
        Some(Ok(url)) => Ok(url),
        Some(Err(Refusal::ByCause(cause))) => Err(NodeFault::Refused(cause)),
        Some(Err(Refusal::TooDeep)) => Err(NodeFault::Limit {
            which: LimitName::Depth,
        }),
    }
}
