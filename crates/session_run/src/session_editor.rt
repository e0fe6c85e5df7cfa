use crate::edits::make_edit;
use edit_session::Session;
use session_spec::Change;
use session_talk::{Editor, EditorFault};
use session_watch::Watch;
use shared_types::{Bytes, Listed, Steps};
use std::alloc::Global;
use std::sync::ledger::Ledger;
use tree_model::Folder;

/// A session with the folder at which its edits look, and with the watch to which it is shown.
#[derive(Drop)]
pub(crate) struct SessionEditor<'a, 'b, 'c, 'd, F: Folder, W: Watch, L: Ledger> {
    pub(crate) session: &'a mut Session,
    pub(crate) folder: &'b mut F,
    pub(crate) watch: &'c mut W,
    pub(crate) steps: &'d mut Steps<L>,
}

impl<'a, 'b, 'c, 'd, F: Folder, W: Watch, L: Ledger> Editor
    for SessionEditor<'a, 'b, 'c, 'd, F, W, L> {
    ghost use Rattle.std.specs.Prelude.{[], ◌∷◌};
    ghost use Rattle.session_run.specs.Editing.{IsViewOf, look_state};

    ghost views = { λ editor view. IsViewOf (F.state editor.folder.now) editor.session.now (W.seen editor.watch.now)
        editor.steps.now view };

    ghost looks = { λ editor. look_state (editor.session.ghost_name ∷ editor.folder.ghost_name
        ∷ editor.watch.ghost_name ∷ editor.steps.ghost_name ∷ []) (F.state editor.folder.now) editor.session.now };

    fn edit(&mut self, alloc: Global, edit: &Listed<Change>) -> Result<Bytes, EditorFault> {
        make_edit(
            alloc,
            self.session,
            edit,
            self.folder,
            self.watch,
            self.steps,
        )
    }

    fn map(&self) -> &[u8] {
        self.session.map()
    }
}
