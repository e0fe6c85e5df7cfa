ghost use Rattle.std.specs.Prelude.{◌≡◌, ◌≢◌, Result, IfErr, MatchResult};
ghost use Rattle.module_sources.specs.Shown.{source_in, FindsSource, IsSource};
ghost use Rattle.node_resolve.specs.Places.{module_of};
ghost use Rattle.node_resolve.specs.Responses.{responded};
ghost use Rattle.node_spec.specs.NodeAnswers.{Module, Refusal};
ghost use Rattle.package_lookup.specs.Responses.{fails, never, looked, by_limit, deep_config};
ghost use Rattle.trace_walk.specs.Kinds.{IsOfAnswers};
ghost use Rattle.trace_walk.specs.Shown.{sources, resolutions};
ghost use Rattle.request_trace.specs.Answering.{result_by};

use condition_match::Conditions;
use module_sources::{NoSource, Source, module_source};
use node_resolve::{Found, NodeFault, resolve};
use package_lookup::{Lookup, LookupFault};
use shared_types::Steps;
use std::alloc::Global;
use std::sync::ledger::Ledger;
use trace_spec::TraceFault;
use trace_walk::{Answerer, NodeAnswer};
use tree_model::{Folder, Path};
use tree_spec::LimitName;

/// Answers a walk's questions by looks at a folder. What is known of the folder isn't looked at again; each question is
/// a new one on the trail.
#[derive(Drop)]
pub struct FolderAnswers<'a, 'b, F: Folder, L: Ledger> {
    pub(crate) lookup: Lookup<'a, F>,
    pub(crate) steps: &'b mut Steps<L>,
}

impl<'a, 'b, F: Folder, L: Ledger> Answerer for FolderAnswers<'a, 'b, F, L> {
    ghost use Rattle.std.specs.Prelude.{⊤};
    ghost use Rattle.package_lookup.specs.Lookups.{state_of};
    ghost use Rattle.request_trace.specs.Answering.{all_fresh, all_kept, answers_of, stays_of};

    ghost state = { λ answers. answers_of all_fresh all_kept (stays_of answers.lookup answers.steps.ghost_name)
        answers.steps.now (state_of F.state answers.lookup) };

    ghost ready = { λ answers. ⊤ };

    fn module(
        &mut self,
        alloc: Global,
        path: &Path,
    ) -> Result<Result<Source, NoSource>, TraceFault> {
        let found = module_source(&mut self.lookup, path, self.steps);
        source_answer(found)
    }

    fn request(
        &mut self,
        alloc: Global,
        conditions: &Conditions,
        parent: &Path,
        specifier: &str,
    ) -> Result<NodeAnswer, TraceFault> {
        let found = resolve(&mut self.lookup, parent, specifier, conditions, self.steps);
        node_answer(found)
    }
}

/// A module's source, as the walk is told it.
pub fn source_answer(
    found: Result<Result<Source, NoSource>, LookupFault>,
) -> Result<Result<Source, NoSource>, TraceFault>
    requires { looked source_in found ≢ fails never }
    ensures is { sources result ≡ result_by (looked source_in found) }
    ensures kind { MatchResult result (λ source. FindsSource found → IsSource source) IsOfAnswers }
{
    match found {
        Ok(source) => Ok(source),
        Err(LookupFault::ReadFault) => Err(TraceFault::ReadFault),
        Err(LookupFault::Limit { which }) => Err(TraceFault::Limit { which }),
        Err(LookupFault::InvalidConfig) => unreachable!(),
        Err(LookupFault::Memory) => Err(TraceFault::Memory),
    }
}

/// Node's answer, as the walk is told it.
pub fn node_answer(found: Result<Found, NodeFault>) -> Result<NodeAnswer, TraceFault>
    requires { responded module_of found ≢ fails never }
    ensures is { resolutions result ≡ result_by (responded module_of found) }
    ensures kind { IfErr result IsOfAnswers }
{
    match found {
        Ok(found) => Ok(NodeAnswer::Resolved(found.into_module())),
        Err(NodeFault::Refused(cause)) => Ok(NodeAnswer::Refused { cause }),
        Err(NodeFault::ReadFault) => Err(TraceFault::ReadFault),
        Err(NodeFault::Limit { which }) => limit_answer(which),
        Err(NodeFault::Memory) => Err(TraceFault::Memory),
    }
}

// The limit of brackets is an answer, and the others end the walk.
fn limit_answer(which: LimitName) -> Result<NodeAnswer, TraceFault>
    requires { by_limit {X = Result Module Refusal} deep_config which ≢ fails never }
    ensures is { resolutions result ≡ result_by (by_limit deep_config which) }
    ensures kind { IfErr result IsOfAnswers }
{
    match which {
        LimitName::Depth => Ok(NodeAnswer::TooDeep),
        _ => Err(TraceFault::Limit { which }),
    }
}
