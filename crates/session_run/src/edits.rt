ghost use Rattle.std.specs.Prelude.{◌≡◌, ℕ, List, true, is_some, IfOk};
ghost use Rattle.edit_session.specs.Sessions.{Commits};
ghost use Rattle.edit_session.specs.SessionTrees.{shown_counts, showing_in};
ghost use Rattle.session_spec.specs.Replies.{accepted_line};
ghost use Rattle.session_talk.specs.EditorLooks.{EditAsks};
ghost use Rattle.session_talk.specs.Editors.{EditsFrom};
ghost use Rattle.session_run.specs.Editing.{IsViewOf, look_state, SaysLine, SaysShown, SaysStop};

use edit_session::{Edit, EditStop, Session};
use run_texts::{done_line, line_of};
use session_talk::EditorFault;
use session_texts::edit_line;
use session_watch::Watch;
use shared_types::{Bytes, Memory, Steps};
use std::alloc::Global;
use std::sync::ledger::Ledger;
use tree_model::Folder;

/// Makes an edit of the session, shows what is accepted, and gives the line that is replied: what is accepted is its
/// state then.
pub(crate) fn make_edit<F: Folder, W: Watch, L: Ledger>(
    alloc: Global,
    session: &mut Session,
    edit: &Edit,
    folder: &mut F,
    watch: &mut W,
    steps: &mut Steps<L>,
) -> Result<Bytes, EditorFault>
    ensures edits { EditsFrom (IsViewOf (F.state folder.old) session.old (W.seen watch.old) steps.old) edit.now result
        (IsViewOf (F.state folder.new) session.new (W.seen watch.new) steps.new) }
    ensures asks { (references : List ℕ) → EditAsks (look_state references (F.state folder.old) session.old) result
        (look_state references (F.state folder.new) session.new) }
{
    match session.prepare(alloc, edit, folder, steps) {
        Ok(()) => accept(alloc, session, watch),
        Err(stop) => {
            let line = stopped(alloc, &stop);
            drop(stop);
            line
        }
    }
}

// Makes what is pending the state of the session, shows it, and says so.
fn accept<W: Watch>(
    alloc: Global,
    session: &mut Session,
    watch: &mut W,
) -> Result<Bytes, EditorFault>
    requires { is_some session.old.pending ≡ true }
    ensures commits { Commits session.old session.new }
    ensures says { SaysShown (accepted_line (shown_counts session.new)) (W.seen watch.old) (showing_in session.new)
        (W.seen watch.new) result }
{
    session.commit();
    match watch.shown(alloc, session.slots(), session.view()) {
        Err(_) => Err(EditorFault::Memory),
        Ok(()) => {
            let counts = session.counts();
            said(done_line(alloc, counts.modules, counts.requests, counts.mappings))
        }
    }
}

// Says why an edit isn't made.
fn stopped(alloc: Global, stop: &EditStop) -> Result<Bytes, EditorFault>
    ensures { SaysStop stop.now result }
{
    match stop {
        EditStop::Change { fault } => said(edit_line(alloc, fault)),
        EditStop::Generation { why } => said(line_of(alloc, why)),
        EditStop::ReadFault => Err(EditorFault::ReadFault),
        EditStop::Memory => Err(EditorFault::Memory),
    }
}

fn said(line: Result<Vec<u8>, Memory>) -> Result<Bytes, EditorFault>
    ensures { (text : List ℕ) → IfOk line (λ bytes. bytes.items ≡ text) → SaysLine text result }
{
    match line {
        Ok(bytes) => Ok(Bytes::from_vec(bytes)),
        Err(_) => Err(EditorFault::Memory),
    }
}
