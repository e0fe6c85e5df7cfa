ghost use Rattle.std.specs.Prelude.{◌≡◌, ◌+◌, IfOk, length};
ghost use Rattle.request_trace.specs.Showing.{gathered_of};
ghost use Rattle.request_trace.specs.Footprints.{IsFootprint};
ghost use Rattle.request_trace.specs.Tracing.{TakesSteps, TakesStepsToEnd, Traces, TracesTables};
ghost use Rattle.trace_walk.specs.Shown.{before_of};
ghost use Rattle.trace_walk.specs.Walked.{AreWalked};
ghost use Rattle.tree_spec.specs.LookLimits.{no_trail};

use crate::folder_answers::FolderAnswers;
use crate::traces::Trace;
use package_lookup::{Known, Lookup, Trail};
use shared_types::{Memory, Steps};
use std::alloc::Global;
use std::sync::ledger::Ledger;
use trace_config::Config;
use trace_spec::TraceFault;
use trace_walk::{ComputedNames, Tables, walk};
use tree_model::Folder;

/// The trace of a folder and a config, or its first refusal. No path is looked at that is known, none twice, and none
/// but the generation's: where a limit stops the trace, those up to the look that passes it. A trace takes at most one
/// step for each module and for each request, where it is refused up to the refusal; whatever the folder tells, no more
/// than there may be modules and requests.
pub fn trace<F: Folder, L: Ledger>(
    alloc: Global,
    folder: &mut F,
    known: &mut Known,
    config: &Config,
    steps: &mut Steps<L>,
) -> Result<Trace, TraceFault>
    ensures traces { Traces config.now (F.state folder.old) known.old (gathered_of result) (F.state folder.new)
        known.new }
    ensures entries { IfOk result (λ trace. length trace.links.roots ≡ length config.now.entries) }
    ensures footprint { IfOk result (λ trace. IsFootprint config.now (F.state folder.old) known.old known.new
        trace.footprint) }
    ensures steps { TakesSteps result (λ trace. length trace.gathered.sources + length trace.gathered.targets)
        steps.old steps.new }
    ensures asked { TakesStepsToEnd config.now (F.state folder.old) known.old steps.old steps.new }
{
    let mut trail = Trail::new(alloc);
    let tables = tables_of(alloc, folder, known, &mut trail, config, steps)?;
    let trace = trace_of(alloc, config, tables, trail)?;
    Ok(trace)
}

/// The trace of a walk that ended well, whoever answered its questions: of its tables, and of where was looked for it.
pub fn trace_of(
    alloc: Global,
    config: &Config,
    tables: Tables,
    trail: Trail,
) -> Result<Trace, Memory>
    requires { AreWalked config.now tables }
    ensures gathered { IfOk result (λ trace. trace.gathered ≡ before_of tables) }
    ensures entries { IfOk result (λ trace. length trace.links.roots ≡ length config.now.entries) }
    ensures footprint { IfOk result (λ trace. trace.footprint ≡ trail.paths) }
{
    let base = config.base().copy(alloc)?;
    let trace = Trace::of(alloc, base, tables, config.entries().len(), trail)?;
    Ok(trace)
}

// The tables of the trace.
fn tables_of<F: Folder, L: Ledger>(
    alloc: Global,
    folder: &mut F,
    known: &mut Known,
    trail: &mut Trail,
    config: &Config,
    steps: &mut Steps<L>,
) -> Result<Tables, TraceFault>
    requires { trail.old ≡ no_trail }
    ensures footprint { IfOk result (λ tables. IsFootprint config.now (F.state folder.old) known.old known.new
        trail.new.paths) }
    ensures traces { TracesTables config.now (F.state folder.old) known.old result (F.state folder.new) known.new
        steps.old steps.new }
{
    let mut answers = FolderAnswers {
        lookup: Lookup {
            alloc,
            known,
            folder,
            trail,
        },
        steps,
    };
    walk(alloc, &mut answers, &mut ComputedNames {}, config)
}
