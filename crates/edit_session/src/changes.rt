ghost use Rattle.std.specs.Prelude.{false, Ok, Err};
ghost use Rattle.std.specs.FinMap.{get};
ghost use Rattle.session_spec.specs.Edits.{changed, edited};
ghost use Rattle.session_spec.specs.EditFaults.{CanRefuseChange, CanRefuseEdit};
ghost use Rattle.session_spec.specs.EditLooks.{change_looks, edit_looks};
ghost use Rattle.edit_session.specs.Making.{work, IsAllowed, Makes};

use crate::entries::Entries;
use crate::files::{drop_file, put};
use crate::looks::Looks;
use crate::stop::ChangeStop;
use session_spec::{Change, EditFault};
use std::alloc::Global;
use tree_model::{Folder, Path};
use tree_spec::LookFault;

/// Makes changes one after another, with room made before for the looks that they take.
pub(crate) fn make_all<F: Folder>(
    alloc: Global,
    looks: &mut Looks,
    entries: &mut Entries,
    folder: &mut F,
    edit: &[Change],
) -> Result<(), ChangeStop>
    ensures { Makes (λ draft. edited draft edit.now) (λ draft. edit_looks draft edit.now) (CanRefuseEdit edit.now)
        (work (F.state folder.old) looks.old.known looks.old.over entries.old) result
        (work (F.state folder.new) looks.new.known looks.new.over entries.new) }
{
    looks.make_room(looks_taken(edit));
    let mut rest = edit;
    while let Some((change, more)) = rest.split_first() {
        match make(alloc, looks, entries, folder, change) {
            Err(stop) => return Err(stop),
            Ok(()) => rest = more,
        }
    }
    Ok(())
}

// How many looks the changes of files take at most.
fn looks_taken(edit: &[Change]) -> usize {
    let mut taken = 0usize;
    for change in edit {
        taken = taken.saturating_add(match change {
            Change::Link { .. } => 0,
            Change::Unlink { .. } => 0,
            Change::Put { path, .. } => path.as_str().split('/').count().saturating_sub(1),
            Change::Drop { .. } => 1,
        });
    }
    taken
}

// Makes one change.
fn make<F: Folder>(
    alloc: Global,
    looks: &mut Looks,
    entries: &mut Entries,
    folder: &mut F,
    change: &Change,
) -> Result<(), ChangeStop>
    ensures { Makes (λ draft. changed draft change.now) (λ draft. change_looks (get draft.tree) change.now)
        (CanRefuseChange change.now) (work (F.state folder.old) looks.old.known looks.old.over entries.old) result
        (work (F.state folder.new) looks.new.known looks.new.over entries.new) }
{
    match change {
        Change::Link { entry } => entries.link(alloc, entry),
        Change::Unlink { entry } => entries.unlink(alloc, entry),
        Change::Put { path, bytes } => {
            let made = put(alloc, looks, folder, path, bytes);
            allowed(alloc, path, made)
        }
        Change::Drop { path } => {
            let made = drop_file(alloc, looks, folder, path);
            allowed(alloc, path, made)
        }
    }
}

// How a change of a file is made that may be made or not.
fn allowed(alloc: Global, path: &Path, made: Result<bool, LookFault>) -> Result<(), ChangeStop>
    ensures { IsAllowed path.now made result }
{
    match made {
        Ok(true) => Ok(()),
        Ok(false) => Err(bad_edit(alloc, path)),
        Err(fault) => Err(ChangeStop::of_look(fault)),
    }
}

fn bad_edit(alloc: Global, path: &Path) -> ChangeStop
    ensures { IsAllowed path.now (Ok false) (Err result) }
{
    match path.copy(alloc) {
        Ok(path) => ChangeStop::Refused {
            fault: EditFault::BadEdit { path },
        },
        Err(_) => ChangeStop::Memory,
    }
}
