ghost use Rattle.std.specs.Prelude.{◌≡◌, OnOk};
ghost use Rattle.std.specs.FinMap.{get};
ghost use Rattle.kept_trace.specs.Ready.{AreAllRight, is_anew};
ghost use Rattle.request_trace.specs.Tracing.{StepsByFresh, TakesSteps};
ghost use Rattle.session_spec.specs.SessionStates.{config_with};
ghost use Rattle.edit_session.specs.Mapping.{IsKeptFor};
ghost use Rattle.edit_session.specs.Shown.{KeepsShown, PlansFor};
ghost use Rattle.edit_session.specs.SessionTrees.{steps_of};
ghost use Rattle.edit_session.specs.Trying.{IfLaid, TriesMap};

use crate::entries::Entries;
use crate::mapping::map_again;
use crate::showing::Showing;
use generation::{Generated, Stop};
use kept_trace::TraceAnswers;
use package_lookup::{Known, Over};
use request_trace::Config;
use shared_types::Steps;
use std::alloc::Global;
use std::sync::ledger::Ledger;
use tree_model::Folder;

/// The map for other entries, where other looks are laid; what was laid and the entries are as before then.
pub(crate) fn try_map<F: Folder, L: Ledger>(
    alloc: Global,
    answers: &mut TraceAnswers,
    shown: &mut Showing,
    known: &mut Known,
    config: &mut Config,
    over: &mut Over,
    entries: &mut Entries,
    folder: &mut F,
    steps: &mut Steps<L>,
) -> Result<Generated, Stop>
    ensures tries { TriesMap (AreAllRight answers.old.kept) (F.state folder.old) known.old config.old over.old
        entries.old result (F.state folder.new) known.new over.new }
    ensures config { config.new ≡ config.old }
    ensures entries { entries.new ≡ entries.old }
    ensures steps { TakesSteps result steps_of steps.old steps.new }
    ensures fresh { IfLaid (AreAllRight answers.old.kept) (F.state folder.old) known.old over.old
        (λ seen. StepsByFresh (is_anew answers.old.kept) (get seen) (config_with config.old entries.old)
        steps.old steps.new) }
    ensures kept { answers.new.kept ≡ answers.old.kept }
    ensures keeps { OnOk result (IfLaid (AreAllRight answers.old.kept) (F.state folder.old) known.old
        over.old (IsKeptFor answers.old.kept (config_with config.old entries.old) answers.new.next)) }
    ensures shown { KeepsShown shown.old.links shown.new.links }
    ensures plans { OnOk result (PlansFor
        (IfLaid (AreAllRight answers.old.kept) (F.state folder.old) known.old over.old)
        (config_with config.old entries.old) shown.new) }
{
    known.lay(over);
    entries.exchange(config);
    let made = map_again(alloc, answers, shown, folder, known, config, steps);
    entries.exchange(config);
    known.lay(over);
    made
}
