//! The source of a module, as it is kept or anew.
ghost use Rattle.std.specs.Prelude.{◌≡◌, ◌≤◌, ◌+◌, ℕ, List, Some, Ok, IfOk, IfSome, OnOk, OnErr, bytes_eq};
ghost use Rattle.tree_spec.specs.LookAskings.{look_at_each};
ghost use Rattle.trace_spec.specs.Questions as spec;
ghost use Rattle.module_sources.specs.Shown.{source_in, source_of, FindsSource, IsSource};
ghost use Rattle.package_lookup.specs.Answered.{Answered};
ghost use Rattle.package_lookup.specs.Lookups.{begun_of, state_of, IsSameLookup};
ghost use Rattle.package_lookup.specs.Responses.{looked};
ghost use Rattle.kept_spec.specs.Certificates.{LookSeen};
ghost use Rattle.kept_answers.specs.Entries.{source_seen};
ghost use Rattle.kept_answers.specs.Freshness.{module_looks, put_looks, IsSeenNow, StaysSeen, TakesStepIfFresh};
ghost use Rattle.kept_answers.specs.KnownLooks.{done, AreLooksAt, IsKept};
ghost use Rattle.kept_answers.specs.Puts.{PutsLooks};
ghost use Rattle.kept_answers.specs.RightAnswers.{AnsweredIf};
ghost use Rattle.kept_answers.specs.Tables.{IsModuleOf, AreModules};

use crate::looks::{Looks, look_again, looks_of};
use crate::modules::{KeptModule, KeptModules, source_copy};
use module_sources::{NoSource, Source, module_source};
use package_lookup::{Lookup, LookupFault, some_sights};
use shared_types::{Memory, Steps};
use std::alloc::Global;
use std::rc::Rc;
use std::sync::ledger::Ledger;
use tree_model::{Folder, Path};

impl KeptModules {
    /// The source of the file at a path, or why it has none: what `module_source` gives, without a step where it is
    /// kept here and what decided it stands there still. A source is kept in the next table.
    pub fn answer<F: Folder, L: Ledger>(
        &self,
        lookup: &mut Lookup<'_, F>,
        path: &Path,
        steps: &mut Steps<L>,
        next: &mut KeptModules,
    ) -> Result<Result<Source, NoSource>, LookupFault>
        ensures answered { AnsweredIf (AreModules self.now) (begun_of F.state lookup.old) (spec.module_source path.now)
            (looked source_in result) (state_of F.state lookup.new) }
        ensures cost { steps.new ≤ steps.old + 1 }
        ensures fresh { TakesStepIfFresh (F.state lookup.old.folder.now) lookup.old.known.now
            (module_looks self.now path.now) steps.old steps.new }
        ensures is { FindsSource result }
        ensures kept { IfOk result (λ answer. IfOk answer (λ source. IsSeenNow (state_of F.state lookup.old)
            (module_looks next.new path.now))) }
        ensures still { (other : List ℕ) → StaysSeen (state_of F.state lookup.old)
            (module_looks next.old other) (module_looks next.new other) }
        ensures right { IfSome (F.state lookup.old.folder.now).holds
            (λ tree. AreModules self.now → AreModules next.old → AreModules next.new) }
        ensures same { IsSameLookup lookup.old lookup.new }
    {
        match self.get(path) {
            None => module_anew(lookup, path, steps, next),
            Some(found) => module_again(lookup, path, steps, next, found),
        }
    }
}

// The kept source, where the looks that decided it see the same; else the source anew.
fn module_again<F: Folder, L: Ledger>(
    lookup: &mut Lookup<'_, F>,
    path: &Path,
    steps: &mut Steps<L>,
    next: &mut KeptModules,
    found: &KeptModule,
) -> Result<Result<Source, NoSource>, LookupFault>
    ensures answered { AnsweredIf (IsModuleOf path.now found.now) (begun_of F.state lookup.old)
        (spec.module_source path.now) (looked source_in result) (state_of F.state lookup.new) }
    ensures cost { steps.new ≤ steps.old + 1 }
    ensures fresh { TakesStepIfFresh (F.state lookup.old.folder.now) lookup.old.known.now (Some found.now.looks)
        steps.old steps.new }
    ensures is { FindsSource result }
    ensures kept { IfOk result (λ answer. IfOk answer (λ source. IsSeenNow (state_of F.state lookup.old)
        (module_looks next.new path.now))) }
    ensures still { (other : List ℕ) → StaysSeen (state_of F.state lookup.old) (module_looks next.old other)
        (module_looks next.new other) }
    ensures right { IfSome (F.state lookup.old.folder.now).holds
        (λ tree. IsModuleOf path.now found.now → AreModules next.old → AreModules next.new) }
    ensures same { IsSameLookup lookup.old lookup.new }
{
    match look_again(lookup, found.looks()) {
        Err(fault) => Err(fault),
        Ok(false) => module_anew(lookup, path, steps, next),
        Ok(true) => match keep_again(lookup.alloc, path, next, found) {
            Err(_) => Err(LookupFault::Memory),
            Ok(source) => Ok(Ok(source)),
        },
    }
}

fn keep_again(
    alloc: Global,
    path: &Path,
    next: &mut KeptModules,
    found: &KeptModule,
) -> Result<Source, Memory>
    ensures source { IfOk result (λ source. source_of source ≡ source_seen found.now) }
    ensures is { IfOk result (λ source. IsSource (Ok source)) }
    ensures set { OnOk result ((other : List ℕ) → module_looks next.new other
        ≡ put_looks bytes_eq path.now found.now.looks (module_looks next.old) other) }
    ensures unset { OnErr result ((other : List ℕ) → module_looks next.new other ≡ module_looks next.old other) }
    ensures right { IsModuleOf path.now found.now → AreModules next.old → AreModules next.new }
{
    let source = found.source()?;
    next.put(alloc, path, found.copy()?)?;
    Ok(source)
}

// The source, by new looks, which are kept with it.
fn module_anew<F: Folder, L: Ledger>(
    lookup: &mut Lookup<'_, F>,
    path: &Path,
    steps: &mut Steps<L>,
    next: &mut KeptModules,
) -> Result<Result<Source, NoSource>, LookupFault>
    ensures answered { Answered (begun_of F.state lookup.old) (spec.module_source path.now)
        (looked source_in result) (state_of F.state lookup.new) }
    ensures cost { steps.new ≤ steps.old + 1 }
    ensures is { FindsSource result }
    ensures kept { IfOk result (λ answer. IfOk answer (λ source. IsSeenNow (state_of F.state lookup.old)
        (module_looks next.new path.now))) }
    ensures still { (other : List ℕ) → StaysSeen (state_of F.state lookup.old) (module_looks next.old other)
        (module_looks next.new other) }
    ensures right { IfSome (F.state lookup.old.folder.now).holds (λ tree. AreModules next.old → AreModules next.new) }
    ensures same { IsSameLookup lookup.old lookup.new }
{
    some_sights();
    match module_source(lookup, path, steps) {
        Err(fault) => Err(fault),
        Ok(Err(why)) => Ok(Err(why)),
        Ok(Ok(source)) => match keep_module(lookup, path, next, &source) {
            Err(fault) => Err(fault),
            Ok(()) => Ok(Ok(source)),
        },
    }
}

// Keeps a source with the looks of the present question.
fn keep_module<F: Folder>(
    lookup: &mut Lookup<'_, F>,
    path: &Path,
    next: &mut KeptModules,
    source: &Source,
) -> Result<(), LookupFault>
    requires { IsSource (Ok source.now) }
    ensures answered { Answered (state_of F.state lookup.old) (look_at_each lookup.old.trail.now.question)
        (looked done result) (state_of F.state lookup.new) }
    ensures set { IfOk result (λ unit. PutsLooks bytes_eq path.now (module_looks next.old) (module_looks next.new)
        lookup.new.known.now lookup.old.trail.now.question) }
    ensures unset { OnErr result ((other : List ℕ) → module_looks next.new other ≡ module_looks next.old other) }
    ensures right { ((looks : List LookSeen) → AreLooksAt lookup.new.known.now lookup.old.trail.now.question looks
        → IsKept (spec.module_source path.now) (Ok (source_of source.now)) looks)
        → AreModules next.old → AreModules next.new }
    ensures same { IsSameLookup lookup.old lookup.new }
{
    let looks = looks_of(lookup)?;
    put_module(lookup.alloc, path, next, source, looks)?;
    Ok(())
}

fn put_module(
    alloc: Global,
    path: &Path,
    next: &mut KeptModules,
    source: &Source,
    looks: Looks,
) -> Result<(), Memory>
    requires { IsSource (Ok source.now) }
    ensures set { OnOk result ((other : List ℕ) → module_looks next.new other
        ≡ put_looks bytes_eq path.now looks (module_looks next.old) other) }
    ensures unset { OnErr result ((other : List ℕ) → module_looks next.new other ≡ module_looks next.old other) }
    ensures right { IsKept (spec.module_source path.now) (Ok (source_of source.now)) looks → AreModules next.old
        → AreModules next.new }
{
    let source = source_copy(source)?;
    let looks = Rc::new(alloc, looks)?;
    next.put(alloc, path, KeptModule::of(source, looks))
}
