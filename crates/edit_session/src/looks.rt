ghost use Rattle.std.specs.Prelude.{◌≡◌, List, ℕ, OnOk};
ghost use Rattle.kept_trace.specs.Ready.{AreAllRight, is_anew};
ghost use Rattle.std.specs.FinMap.{get};
ghost use Rattle.package_lookup.specs.Looked.{kept_at, over_at, Puts};
ghost use Rattle.request_trace.specs.Tracing.{StepsByFresh, TakesSteps};
ghost use Rattle.session_spec.specs.SessionStates.{config_with};
ghost use Rattle.edit_session.specs.Mapping.{IsKeptFor};
ghost use Rattle.edit_session.specs.Shown.{KeepsShown, PlansFor};
ghost use Rattle.edit_session.specs.SessionTrees.{steps_of};
ghost use Rattle.edit_session.specs.Agreement.{AgreeBut};
ghost use Rattle.edit_session.specs.Standings.{Stands};
ghost use Rattle.edit_session.specs.Trying.{IfLaid, TriesMap};

use crate::entries::Entries;
use crate::showing::Showing;
use crate::standing::{Standing, standing_of};
use crate::trying::try_map;
use generation::{Generated, Stop};
use kept_trace::TraceAnswers;
use package_lookup::{Known, Over};
use request_trace::Config;
use shared_types::{Memory, Steps};
use std::alloc::Global;
use std::sync::ledger::Ledger;
use tree_model::{Folder, Look, Path};
use tree_spec::LookFault;

/// What is known of a folder, with the looks that are laid over it; and the looks of an edit beside them. Those of the
/// edit are changed by what the edit says and no more, so an edit costs what it changes, however much is laid.
#[derive(Drop)]
pub(crate) struct Looks {
    pub(crate) known: Known,
    pub(crate) over: Over,
    // The paths at which the looks of the edit may be others than those that are laid.
    pub(crate) changed: Vec<Path>,
    ghost agree: { AgreeBut changed.items known.laid over },
}

impl Looks {
    /// Makes the looks of the edit those that are laid.
    pub(crate) fn level(&mut self, alloc: Global) -> Result<(), Memory>
        ensures known { self.new.known ≡ self.old.known }
        ensures level { OnOk result ((path : List ℕ) → over_at self.new.over path ≡ over_at self.new.known.laid path) }
    {
        self.over.make_room(self.changed.len());
        make_level(
            alloc,
            self.known.laid(),
            &mut self.over,
            self.changed.as_slice(),
        )?;
        self.changed.clear();
        Ok(())
    }

    /// Makes room for so many looks that an edit takes, and lays.
    pub(crate) fn make_room(&mut self, more: usize)
        ensures laid { self.new.known.laid ≡ self.old.known.laid }
        ensures kept { (path : List ℕ) → kept_at self.new.known path ≡ kept_at self.old.known path }
        ensures over { (path : List ℕ) → over_at self.new.over path ≡ over_at self.old.over path }
    {
        self.known.make_room(more);
        self.over.make_room(more);
    }

    /// What stands at a path, where the looks of the edit are laid over what is known.
    pub(crate) fn standing_of<F: Folder>(
        &mut self,
        alloc: Global,
        folder: &mut F,
        path: &Path,
    ) -> Result<Standing, LookFault>
        ensures { Stands (F.state folder.old) self.old.known self.old.over path.now result
            (F.state folder.new) self.new.known self.new.over }
    {
        standing_of(alloc, &mut self.known, &mut self.over, folder, path)
    }

    /// Puts a look of the edit at its path.
    pub(crate) fn set(&mut self, alloc: Global, path: &Path, look: Look) -> Result<(), Memory>
        ensures set { OnOk result (Puts self.old.over path.now look self.new.over) }
        ensures known { self.new.known ≡ self.old.known }
    {
        let at = path.copy(alloc)?;
        self.changed.push(at)?;
        self.over.set(alloc, path, look)
    }

    /// The map for other entries, where the looks of the edit are laid.
    pub(crate) fn try_map<F: Folder, L: Ledger>(
        &mut self,
        alloc: Global,
        answers: &mut TraceAnswers,
        shown: &mut Showing,
        config: &mut Config,
        entries: &mut Entries,
        folder: &mut F,
        steps: &mut Steps<L>,
    ) -> Result<Generated, Stop>
        ensures tries { TriesMap (AreAllRight answers.old.kept) (F.state folder.old) self.old.known config.old
            self.old.over entries.old result (F.state folder.new) self.new.known self.new.over }
        ensures config { config.new ≡ config.old }
        ensures entries { entries.new ≡ entries.old }
        ensures steps { TakesSteps result steps_of steps.old steps.new }
        ensures fresh { IfLaid (AreAllRight answers.old.kept) (F.state folder.old) self.old.known self.old.over
            (λ seen. StepsByFresh (is_anew answers.old.kept) (get seen) (config_with config.old entries.old)
            steps.old steps.new) }
        ensures kept { answers.new.kept ≡ answers.old.kept }
        ensures keeps { OnOk result (IfLaid (AreAllRight answers.old.kept) (F.state folder.old) self.old.known
            self.old.over (IsKeptFor answers.old.kept (config_with config.old entries.old) answers.new.next)) }
        ensures shown { KeepsShown shown.old.links shown.new.links }
        ensures plans { OnOk result (PlansFor (IfLaid (AreAllRight answers.old.kept) (F.state folder.old)
            self.old.known self.old.over) (config_with config.old entries.old) shown.new) }
    {
        try_map(
            alloc,
            answers,
            shown,
            &mut self.known,
            config,
            &mut self.over,
            entries,
            folder,
            steps,
        )
    }
}

// Makes looks those that are laid, which they are but at some paths.
fn make_level(alloc: Global, laid: &Over, over: &mut Over, changed: &[Path]) -> Result<(), Memory>
    requires { AgreeBut changed.now laid.now over.old }
    ensures agree { AgreeBut changed.now laid.now over.new }
    ensures level { OnOk result ((path : List ℕ) → over_at over.new path ≡ over_at laid.now path) }
{
    let mut rest = changed;
    while let Some((path, more)) = rest.split_first() {
        match over.follow(alloc, path, laid) {
            Err(lack) => return Err(lack),
            Ok(()) => rest = more,
        }
    }
    Ok(())
}
