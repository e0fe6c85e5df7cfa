ghost use Rattle.std.specs.Prelude.{◌≢◌, IfErr};
ghost use Rattle.node_resolve.specs.Places.{module_of};
ghost use Rattle.node_resolve.specs.Responses.{responded};
ghost use Rattle.package_lookup.specs.Responses.{fails, never};
ghost use Rattle.trace_walk.specs.Kinds.{IsOfAnswers};
ghost use Rattle.trace_walk.specs.Shown.{resolutions};
ghost use Rattle.kept_trace.specs.Sharing.{IsToldAs};

use crate::kept::Kept;
use condition_match::Conditions;
use kept_answers::Requested;
use module_sources::{NoSource, Source};
use node_resolve::{Found, NodeFault, resolve};
use package_lookup::Lookup;
use request_trace::{node_answer, source_answer};
use shared_types::Steps;
use std::alloc::Global;
use std::rc::Rc;
use std::sync::ledger::Ledger;
use trace_spec::TraceFault;
use trace_walk::{Answerer, NodeAnswer};
use tree_model::{Folder, Path};

/// Answers a walk's questions by what is kept of an earlier walk, else by looks at a folder, and keeps each answer for
/// the next walk.
#[derive(Drop)]
pub struct KeptAnswers<'a, 'b, 'c, 'd, F: Folder, L: Ledger> {
    pub(crate) lookup: Lookup<'a, F>,
    pub(crate) steps: &'b mut Steps<L>,
    pub(crate) kept: &'c Kept,
    pub(crate) next: &'d mut Kept,
}

impl<'a, 'b, 'c, 'd, F: Folder, L: Ledger> Answerer for KeptAnswers<'a, 'b, 'c, 'd, F, L> {
    ghost use Rattle.package_lookup.specs.Lookups.{state_of};
    ghost use Rattle.request_trace.specs.Answering.{answers_of};
    ghost use Rattle.kept_trace.specs.Keeping.{answers_if, keeps, stays_of};
    ghost use Rattle.kept_trace.specs.Ready.{AreBothRight, AreUnderOne, is_anew};

    ghost state = { λ answers. answers_if (AreBothRight answers.kept.now answers.next.now)
        (answers_of (is_anew answers.kept.now) (keeps answers.next.now)
        (stays_of answers.lookup answers.steps.ghost_name answers.next.ghost_name answers.next.now)
        answers.steps.now (state_of F.state answers.lookup)) };

    ghost ready = { λ answers. AreUnderOne answers.kept.now answers.next.now };

    fn module(
        &mut self,
        alloc: Global,
        path: &Path,
    ) -> Result<Result<Source, NoSource>, TraceFault> {
        let found = self
            .kept
            .modules
            .answer(&mut self.lookup, path, self.steps, &mut self.next.modules);
        source_answer(found)
    }

    fn request(
        &mut self,
        alloc: Global,
        conditions: &Conditions,
        parent: &Path,
        specifier: &str,
    ) -> Result<NodeAnswer, TraceFault> {
        if !self.kept.requests.is_under(conditions) {
            let found = resolve(&mut self.lookup, parent, specifier, conditions, self.steps);
            return node_answer(found);
        }
        let request = Requested {
            parent,
            specifier,
            conditions,
        };
        let found = self.kept.requests.answer(
            &mut self.lookup,
            &request,
            self.steps,
            &mut self.next.requests,
        );
        shared_answer(alloc, found)
    }
}

// Node's answer of a module that is kept too, as the walk is told it.
fn shared_answer(
    alloc: Global,
    found: Result<Rc<Found>, NodeFault>,
) -> Result<NodeAnswer, TraceFault>
    requires { responded (λ found. module_of found.value) found ≢ fails never }
    ensures is { IsToldAs (responded (λ found. module_of found.value) found) (resolutions result) }
    ensures kind { IfErr result IsOfAnswers }
{
    match found {
        Err(fault) => node_answer(Err(fault)),
        Ok(found) => match found.module(alloc) {
            Err(_) => Err(TraceFault::Memory),
            Ok(module) => Ok(NodeAnswer::Resolved(module)),
        },
    }
}
