ghost use Rattle.std.specs.Prelude.{◌≡◌, ◌+◌, IfOk, IfSome, OnOk, length};
ghost use Rattle.tree_spec.specs.LookLimits.{no_trail};
ghost use Rattle.request_trace.specs.Footprints.{IsFootprint};
ghost use Rattle.request_trace.specs.Showing.{gathered_of};
ghost use Rattle.request_trace.specs.Tracing.{TakesSteps, TakesFreshSteps};
ghost use Rattle.trace_walk.specs.Shown.{traced_of};
ghost use Rattle.trace_walk.specs.Walked.{AreWalked};
ghost use Rattle.kept_answers.specs.RightAnswers.{untold};
ghost use Rattle.kept_trace.specs.Keeping.{KeepsTraced};
ghost use Rattle.kept_trace.specs.Ready.{AreAllRight, AreBothRight, AreUnderOne, is_anew};
ghost use Rattle.kept_trace.specs.Tracing.{TracesIf};

use crate::answering::KeptAnswers;
use crate::kept::{Kept, TraceAnswers};
use package_lookup::{Known, Lookup, Trail, some_sights};
use request_trace::{Trace, trace_of};
use shared_types::Steps;
use std::alloc::Global;
use std::sync::ledger::Ledger;
use trace_config::Config;
use trace_spec::TraceFault;
use trace_walk::{KeptNames, Tables, walk};
use tree_model::Folder;

impl TraceAnswers {
    /// The trace of a folder and a config, or its first refusal, as `request_trace::trace` gives it. A question takes a
    /// step only where no answer to it is kept, or where one of the looks that decided the kept answer sees something
    /// else. Each answer is kept for the next trace, in the place of those that were kept for it before.
    pub fn trace<F: Folder, L: Ledger>(
        &mut self,
        alloc: Global,
        folder: &mut F,
        known: &mut Known,
        config: &Config,
        steps: &mut Steps<L>,
    ) -> Result<Trace, TraceFault>
        ensures traces { TracesIf (AreAllRight self.old.kept) config.now (F.state folder.old) known.old
            (gathered_of result) (F.state folder.new) known.new }
        ensures entries { IfOk result (λ trace. length trace.links.roots ≡ length config.now.entries) }
        ensures footprint { IfOk result (λ trace. AreAllRight self.old.kept
            → IsFootprint config.now (F.state folder.old) known.old known.new trace.footprint) }
        ensures looked { IfOk result (λ trace. IsFootprint config.now (untold (F.state folder.old)) known.old known.new
            trace.footprint) }
        ensures steps { TakesSteps result (λ trace. length trace.gathered.sources + length trace.gathered.targets)
            steps.old steps.new }
        ensures fresh { AreAllRight self.old.kept → TakesFreshSteps (is_anew self.old.kept) config.now
            (F.state folder.old) known.old steps.old steps.new }
        ensures kept { self.new.kept ≡ self.old.kept }
        ensures keeps { OnOk result (AreAllRight self.old.kept
            → KeepsTraced config.now (F.state folder.old) known.old self.new.next) }
        ensures right { IfSome (F.state folder.old).holds
            (λ tree. AreAllRight self.old.kept → AreAllRight self.new.next) }
    {
        self.next.clear();
        self.names.begin(self.modules);
        let mut trail = Trail::new(alloc);
        let tables = tables_again(
            alloc,
            folder,
            known,
            &mut trail,
            config,
            steps,
            &self.kept,
            &mut self.next,
            &mut self.names,
        )?;
        self.modules = tables.modules.len();
        let trace = trace_of(alloc, config, tables, trail)?;
        Ok(trace)
    }
}

// The tables of the trace.
fn tables_again<F: Folder, L: Ledger>(
    alloc: Global,
    folder: &mut F,
    known: &mut Known,
    trail: &mut Trail,
    config: &Config,
    steps: &mut Steps<L>,
    kept: &Kept,
    next: &mut Kept,
    names: &mut KeptNames,
) -> Result<Tables, TraceFault>
    requires first { trail.old ≡ no_trail }
    requires under { AreUnderOne kept.now next.old }
    ensures footprint { IfOk result (λ tables. AreBothRight kept.now next.old
        → IsFootprint config.now (F.state folder.old) known.old known.new trail.new.paths) }
    ensures looked { IfOk result (λ tables. IsFootprint config.now (untold (F.state folder.old)) known.old known.new
        trail.new.paths) }
    ensures traces { TracesIf (AreBothRight kept.now next.old) config.now (F.state folder.old) known.old
        (traced_of result) (F.state folder.new) known.new }
    ensures tables { IfOk result (AreWalked config.now) }
    ensures steps { TakesSteps result (λ tables. length tables.sources.items + length tables.targets.items)
        steps.old steps.new }
    ensures fresh { AreBothRight kept.now next.old → TakesFreshSteps (is_anew kept.now) config.now
        (F.state folder.old) known.old steps.old steps.new }
    ensures keeps { OnOk result (AreBothRight kept.now next.old
        → KeepsTraced config.now (F.state folder.old) known.old next.new) }
    ensures right { IfSome (F.state folder.old).holds (λ tree. AreBothRight kept.now next.old → AreAllRight next.new) }
    ensures under { next.new.requests.names ≡ next.old.requests.names }
{
    some_sights();
    let mut answers = KeptAnswers {
        lookup: Lookup {
            alloc,
            known,
            folder,
            trail,
        },
        steps,
        kept,
        next,
    };
    walk(alloc, &mut answers, names, config)
}
