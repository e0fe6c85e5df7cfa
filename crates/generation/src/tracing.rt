ghost use Rattle.std.specs.Prelude.{◌≡◌, ◌+◌, IfOk, length};
ghost use Rattle.request_trace.specs.Footprints.{IsFootprint};
ghost use Rattle.request_trace.specs.Showing.{gathered_of};
ghost use Rattle.request_trace.specs.Tracing.{TakesSteps, TakesStepsToEnd};
ghost use Rattle.generation.specs.Generating.{StepsToEnd, Tracing, TracingOver};

use crate::stop::{Stop, stop_of};
use package_lookup::Known;
use request_trace::{Config, Trace, trace};
use shared_types::Steps;
use std::alloc::Global;
use std::sync::ledger::Ledger;
use tree_model::Folder;

/// The trace of what stands in the folder, for the config. Nothing is written, and no path is looked at twice. A trace
/// takes at most one step for each module and for each request, where it is refused up to the refusal.
pub fn traced<F: Folder, L: Ledger>(
    alloc: Global,
    folder: &mut F,
    config: &Config,
    steps: &mut Steps<L>,
) -> Result<Trace, Stop>
    ensures traces { Tracing config.now (F.state folder.old) (gathered_of result) (F.state folder.new) }
    ensures entries { IfOk result (λ trace. length trace.links.roots ≡ length config.now.entries) }
    ensures steps { TakesSteps result (λ trace. length trace.gathered.modules + length trace.gathered.targets)
        steps.old steps.new }
    ensures to_end { StepsToEnd config.now (F.state folder.old).holds steps.old steps.new }
{
    let mut known = Known::new(alloc);
    traced_over(alloc, folder, &mut known, config, steps)
}

/// The same, where something is known of the folder: the looks that are laid over it, and those that were kept.
pub(crate) fn traced_over<F: Folder, L: Ledger>(
    alloc: Global,
    folder: &mut F,
    known: &mut Known,
    config: &Config,
    steps: &mut Steps<L>,
) -> Result<Trace, Stop>
    ensures traces { TracingOver config.now (F.state folder.old) known.old (gathered_of result) (F.state folder.new)
        known.new }
    ensures entries { IfOk result (λ trace. length trace.links.roots ≡ length config.now.entries) }
    ensures footprint { IfOk result (λ trace. IsFootprint config.now (F.state folder.old) known.old known.new
        trace.footprint) }
    ensures steps { TakesSteps result (λ trace. length trace.gathered.modules + length trace.gathered.targets)
        steps.old steps.new }
    ensures to_end { TakesStepsToEnd config.now (F.state folder.old) known.old steps.old steps.new }
{
    match trace(alloc, folder, known, config, steps) {
        Err(fault) => Err(stop_of(fault)),
        Ok(trace) => Ok(trace),
    }
}
