ghost use Rattle.std.specs.Prelude.{◌≡◌, ℕ, List, true, is_some, IfOk, OnOk};
ghost use Rattle.std.specs.FinMap.{get};
ghost use Rattle.generation.specs.declared.generated.Generated.{Generated};
ghost use Rattle.package_lookup.specs.Looked.{over_at};
ghost use Rattle.request_trace.specs.Tracing.{StepsByFresh, TakesSteps};
ghost use Rattle.kept_trace.specs.Ready.{AreAllRight, is_anew};
ghost use Rattle.session_spec.specs.SessionStates.{config_with};
ghost use Rattle.edit_session.specs.SessionTrees.{steps_of};
ghost use Rattle.edit_session.specs.Trying.{IfLaid};
ghost use Rattle.edit_session.specs.SessionParts.{parts, result_over};
ghost use Rattle.edit_session.specs.Steps.{MakesNext, GeneratesNext, IsStep, TakesFreshOf};

use crate::changes::make_all;
use crate::entries::Entries;
use crate::looks::Looks;
use crate::made::Made;
use crate::session::{Edit, Pending};
use crate::showing::Showing;
use crate::stop::EditStop;
use generation::Generated;
use kept_trace::TraceAnswers;
use package_lookup::{Known, Over};
use request_trace::Config;
use shared_types::{Memory, Steps};
use std::alloc::Global;
use std::mem;
use std::sync::ledger::Ledger;
use tree_model::Folder;

/// What an edit makes of a session. Its looks are then those of the edit.
pub(crate) fn next<F: Folder, L: Ledger>(
    alloc: Global,
    answers: &mut TraceAnswers,
    shown: &mut Showing,
    looks: &mut Looks,
    config: &mut Config,
    edit: &Edit,
    folder: &mut F,
    steps: &mut Steps<L>,
) -> Result<Made, EditStop>
    ensures makes { (generated : Generated) → MakesNext (F.state folder.old)
        (parts looks.old.known config.old generated answers.old shown.old) edit.now (result_over looks.new.over result)
        (F.state folder.new) (parts looks.new.known config.new generated answers.new shown.new) }
    ensures config { config.new ≡ config.old }
    ensures steps { TakesSteps result (λ made. steps_of made.generated) steps.old steps.new }
    ensures fresh { (generated : Generated) → TakesFreshOf (F.state folder.old)
        (parts looks.old.known config.old generated answers.old shown.old) edit.now steps.old steps.new }
{
    match draft(alloc, looks, config) {
        Err(_) => Err(EditStop::Memory),
        Ok(entries) => make(
            alloc, answers, shown, looks, config, entries, edit, folder, steps,
        ),
    }
}

// The looks and the entries, to be changed.
fn draft(alloc: Global, looks: &mut Looks, config: &Config) -> Result<Entries, Memory>
    ensures known { looks.new.known ≡ looks.old.known }
    ensures over { OnOk result ((path : List ℕ) → over_at looks.new.over path ≡ over_at looks.new.known.laid path) }
    ensures entries { IfOk result (λ entries. entries ≡ config.now.entries) }
{
    looks.level(alloc)?;
    let entries = Entries::of(alloc, config)?;
    Ok(entries)
}

// What an edit makes of a session, whose looks and entries these are.
fn make<F: Folder, L: Ledger>(
    alloc: Global,
    answers: &mut TraceAnswers,
    shown: &mut Showing,
    looks: &mut Looks,
    config: &mut Config,
    entries: Entries,
    edit: &Edit,
    folder: &mut F,
    steps: &mut Steps<L>,
) -> Result<Made, EditStop>
    requires over { (path : List ℕ) → over_at looks.old.over path ≡ over_at looks.old.known.laid path }
    requires entries { entries ≡ config.old.entries }
    ensures makes { (generated : Generated) → MakesNext (F.state folder.old)
        (parts looks.old.known config.old generated answers.old shown.old) edit.now (result_over looks.new.over result)
        (F.state folder.new) (parts looks.new.known config.new generated answers.new shown.new) }
    ensures config { config.new ≡ config.old }
    ensures steps { TakesSteps result (λ made. steps_of made.generated) steps.old steps.new }
    ensures fresh { (generated : Generated) → TakesFreshOf (F.state folder.old)
        (parts looks.old.known config.old generated answers.old shown.old) edit.now steps.old steps.new }
{
    let mut entries = entries;
    match make_all(alloc, looks, &mut entries, folder, edit.as_slice()) {
        Err(stop) => {
            drop(entries);
            Err(EditStop::of_change(stop))
        }
        Ok(()) => generate(alloc, answers, shown, looks, config, entries, folder, steps),
    }
}

// The same, where the changes are made.
fn generate<F: Folder, L: Ledger>(
    alloc: Global,
    answers: &mut TraceAnswers,
    shown: &mut Showing,
    looks: &mut Looks,
    config: &mut Config,
    entries: Entries,
    folder: &mut F,
    steps: &mut Steps<L>,
) -> Result<Made, EditStop>
    ensures generates { (generated : Generated) → GeneratesNext (F.state folder.old)
        (parts looks.old.known config.old generated answers.old shown.old) looks.old.over entries
        (result_over looks.new.over result) (F.state folder.new)
        (parts looks.new.known config.new generated answers.new shown.new) }
    ensures config { config.new ≡ config.old }
    ensures steps { TakesSteps result (λ made. steps_of made.generated) steps.old steps.new }
    ensures fresh { IfLaid (AreAllRight answers.old.kept) (F.state folder.old) looks.old.known looks.old.over
        (λ seen. StepsByFresh (is_anew answers.old.kept) (get seen) (config_with config.old entries)
        steps.old steps.new) }
{
    let mut entries = entries;
    let found = looks.try_map(alloc, answers, shown, config, &mut entries, folder, steps);
    match found {
        Err(stop) => {
            drop(entries);
            Err(EditStop::of_map(stop))
        }
        Ok(generated) => Ok(Made { entries, generated }),
    }
}

/// What is pending takes the place of what was, the looks that were laid that of the spare ones, and the answers of the
/// trace behind what is pending that of those that were kept; its modules are shown.
pub(crate) fn step(
    known: &mut Known,
    config: &mut Config,
    generated: &mut Generated,
    answers: &mut TraceAnswers,
    shown: &mut Showing,
    spare: &mut Over,
    pending: Pending,
)
    requires { is_some shown.old.plan ≡ true }
    ensures step { IsStep (parts known.old config.old generated.old answers.old shown.old) pending
        (parts known.new config.new generated.new answers.new shown.new) }
    ensures spare { spare.new ≡ known.old.laid }
{
    let Pending {
        over,
        entries,
        generated: map,
    } = pending;
    let mut over = over;
    let mut entries = entries;
    known.lay(&mut over);
    entries.exchange(config);
    drop(entries);
    drop(mem::replace(generated, map));
    answers.exchange();
    shown.commit();
    drop(mem::replace(spare, over));
}
