ghost use Rattle.std.specs.Prelude.{◌≡◌, ◌≢◌, ◌≤◌, ◌<◌, ℕ, List, length, Some, Ok, IfOk, IfErr, MatchResult};
ghost use Rattle.tree_spec.specs.declared.LimitName.TheVariants.{Requests, Specifier};
ghost use Rattle.tree_spec.specs.Limits.{limit_number};
ghost use Rattle.url_spec.specs.Parsing.{IsUrl};
ghost use Rattle.trace_spec.specs.Modules as spec;
ghost use Rattle.trace_spec.specs.Walking.{Referrer as Referring};
ghost use Rattle.trace_spec.specs.Checks.{Gathered, wanted_by, checked, follows};
ghost use Rattle.trace_walk.specs.Kinds.{IsOfWalk};
ghost use Rattle.trace_walk.specs.Meeting.{Met};
ghost use Rattle.trace_walk.specs.Refusing.{IsUnwanted};
ghost use Rattle.trace_walk.specs.Walking.{IsReferrer, AllNamed, AreBeside, IsGiven, wanted_of, IsOneRequest};
ghost use Rattle.trace_walk.specs.Shown.{before_of, done};

use crate::answerer::{Answerer, NodeAnswer};
use crate::module::Module;
use crate::namer::Namer;
use crate::referrer::Referrer;
use crate::refusals::refusal;
use crate::tables::Tables;
use shared_types::Text;
use std::alloc::Global;
use trace_config::Config;
use trace_spec::{AskCause, TraceFault};
use tree_spec::{LimitName, MOST_REQUESTS, MOST_SPECIFIER_BYTES};
use web_url::{AskFault, Asked, ask};

/// Follows one request of a referrer: what it asks for, where Node leads it, and its place in the tables.
pub(crate) fn follow<A: Answerer, N: Namer>(
    alloc: Global,
    answerer: &mut A,
    namer: &mut N,
    config: &Config,
    tables: &mut Tables,
    referrer: &Referrer,
    specifier: &Text,
) -> Result<(), TraceFault>
    requires ready { A.ready answerer.old }
    requires beside { AreBeside tables.old }
    ensures met { (r : Referring spec.Module) → IsReferrer config.now r referrer.now
        → AllNamed config.now tables.old.modules.entries
        → Met (A.state answerer.old) (follows config.now (before_of tables.old) r specifier.now)
        (done result tables.new) (A.state answerer.new) }
    ensures one { IsOneRequest config.now (IsUrl referrer.now.text) tables.old tables.new
        (A.state answerer.old).steps (A.state answerer.new).steps (A.ready answerer.new) result }
{
    let asked = check(alloc, namer, tables.targets.len(), referrer, specifier)?;
    let conditions = config.conditions();
    match answerer.request(alloc, conditions, &referrer.path, specifier.as_str())? {
        NodeAnswer::Resolved(module) => {
            let (path, suffix) = module.into_parts();
            let target = Module::new(path, suffix);
            tables.put(alloc, namer, config, referrer, specifier, asked, target)
        }
        NodeAnswer::Refused { cause } => {
            drop(asked);
            Err(refusal(alloc, referrer, specifier, AskCause::from(cause))?)
        }
        NodeAnswer::TooDeep => {
            drop(asked);
            Err(TraceFault::Limit {
                which: LimitName::Depth,
            })
        }
    }
}

// What a request asks for, where one more is allowed and its specifier isn't too long.
fn check<N: Namer>(
    alloc: Global,
    namer: &mut N,
    requests: usize,
    referrer: &Referrer,
    specifier: &Text,
) -> Result<Text, TraceFault>
    ensures checked { (config : spec.Config) (before : Gathered) (r : Referring spec.Module)
        → length before.targets ≡ requests → IsReferrer config r referrer.now
        → IsGiven (checked config before r specifier.now) (wanted_of referrer.now.name result) }
    ensures within { MatchResult result
        (λ _. (requests < limit_number Requests) × (length specifier.now ≤ limit_number Specifier))
        (λ fault. (config : spec.Config) → IsOfWalk config fault) }
{
    if requests >= MOST_REQUESTS {
        return Err(TraceFault::Limit {
            which: LimitName::Requests,
        });
    }
    if specifier.len() > MOST_SPECIFIER_BYTES {
        return Err(TraceFault::Limit {
            which: LimitName::Specifier,
        });
    }
    namer.asked(alloc, referrer, specifier)
}

/// The normalized specifier of a referrer, by which it is asked for.
pub(crate) fn asked_text(
    alloc: Global,
    referrer: &Referrer,
    specifier: &Text,
) -> Result<Text, TraceFault>
    ensures wanted { IfOk result (λ asked. wanted_by specifier.now (Some referrer.now.name)
        ≡ Ok (record { referrer = referrer.now.name; asked = asked })) }
    ensures unwanted { IfErr result (λ fault. fault ≢ TraceFault.Memory
        → IsUnwanted referrer.now specifier.now fault) }
{
    match ask(alloc, specifier.as_str(), &referrer.name) {
        Ok(Asked::Url(url)) => Ok(url.into_text(alloc)?),
        Ok(Asked::Bare) => Ok(specifier.copy(alloc)?),
        Err(AskFault::Unaskable) => {
            Err(refusal(alloc, referrer, specifier, AskCause::Unaskable)?)
        }
        Err(AskFault::TrailingSlash) => {
            Err(refusal(alloc, referrer, specifier, AskCause::TrailingSlash)?)
        }
        Err(AskFault::Memory) => Err(TraceFault::Memory),
    }
}
