ghost use Rattle.std.specs.Prelude.{◌≡◌, ◌+◌, IfOk, OnOk, length};
ghost use Rattle.generator_spec.specs.Generation.{PageIsFile};
ghost use Rattle.generation.specs.Mapping.{MapsTrace};
ghost use Rattle.kept_trace.specs.Ready.{AreAllRight, is_anew};
ghost use Rattle.request_trace.specs.Tracing.{TakesSteps, TakesFreshSteps};
ghost use Rattle.edit_session.specs.Mapping.{GeneratesIf, IfKnown, LeavesAnswers};
ghost use Rattle.edit_session.specs.Shown.{KeepsShown, IsPlannedBy, PlansFor};

use crate::showing::Showing;
use generation::{Generated, Stop, stop_of};
use kept_trace::TraceAnswers;
use package_lookup::Known;
use request_trace::{Config, Trace};
use shared_types::Steps;
use std::alloc::Global;
use std::sync::ledger::Ledger;
use tree_model::Folder;

/// The map of what stands in the folder, for the config, by the answers that are kept of the trace before; those of
/// this trace are kept for the next. What is shown stays; the plan to show this trace is made.
pub(crate) fn map_again<F: Folder, L: Ledger>(
    alloc: Global,
    answers: &mut TraceAnswers,
    shown: &mut Showing,
    folder: &mut F,
    known: &mut Known,
    config: &Config,
    steps: &mut Steps<L>,
) -> Result<Generated, Stop>
    ensures generates { GeneratesIf (AreAllRight answers.old.kept) config.now (F.state folder.old) known.old
        result (F.state folder.new) known.new }
    ensures page { IfOk result (λ found. PageIsFile config.now) }
    ensures steps { TakesSteps result (λ found. found.modules + found.requests) steps.old steps.new }
    ensures fresh { AreAllRight answers.old.kept → TakesFreshSteps (is_anew answers.old.kept) config.now
        (F.state folder.old) known.old steps.old steps.new }
    ensures kept { answers.new.kept ≡ answers.old.kept }
    ensures keeps { OnOk result (LeavesAnswers answers.old.kept config.now (F.state folder.old) known.old
        answers.new.next) }
    ensures shown { KeepsShown shown.old.links shown.new.links }
    ensures plans { OnOk result (PlansFor (IfKnown (AreAllRight answers.old.kept) (F.state folder.old) known.old)
        config.now shown.new) }
{
    match answers.trace(alloc, folder, known, config, steps) {
        Err(fault) => Err(stop_of(fault)),
        Ok(trace) => map_with_plan(alloc, config, &trace, shown),
    }
}

// The map of a trace; the plan to show its modules is made.
fn map_with_plan(
    alloc: Global,
    config: &Config,
    trace: &Trace,
    shown: &mut Showing,
) -> Result<Generated, Stop>
    ensures maps { MapsTrace config.now trace.now.gathered result }
    ensures page { IfOk result (λ found. PageIsFile config.now) }
    ensures shown { KeepsShown shown.old.links shown.new.links }
    ensures planned { OnOk result (IsPlannedBy (length shown.old.links.graph) trace.now shown.new) }
{
    match shown.map(alloc, config, trace) {
        Err(stop) => Err(stop),
        Ok(generated) => match shown.plan(alloc, trace) {
            Err(_) => Err(Stop::Memory),
            Ok(()) => Ok(generated),
        },
    }
}
