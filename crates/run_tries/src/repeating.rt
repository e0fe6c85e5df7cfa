//! Who makes the edits of a session, and makes them again.
ghost use Rattle.std.specs.Prelude.{◌≡◌};

use edit_session::{Edit, EditStop, Session};
use run_texts::{done_line, line_of};
use session_spec::Change;
use session_talk::{Editor, EditorFault};
use session_texts::edit_line;
use shared_types::{Bytes, Listed, Memory, Steps};
use std::alloc::Global;
use std::sync::ledger::Ledger;
use tree_model::Folder;

/// What is told of the edits of a session.
#[derive(Clone, Copy)]
pub(crate) struct Told {
    /// How many were made again.
    pub repeats: u64,
    /// Whether the map and its counts were as before behind each that wasn't made, and nothing was pending.
    pub stays: bool,
}

/// A session with the folder at which its edits look. Where a look fails or memory is wanting, the edit is made again,
/// once.
#[derive(Drop)]
pub(crate) struct Repeating<'a, 'b, 'c, F: Folder, L: Ledger> {
    session: &'a mut Session,
    folder: &'b mut F,
    steps: &'c mut Steps<L>,
    told: Told,
}

impl<'a, 'b, 'c, F: Folder, L: Ledger> Repeating<'a, 'b, 'c, F, L> {
    pub fn new(
        session: &'a mut Session,
        folder: &'b mut F,
        steps: &'c mut Steps<L>,
    ) -> Repeating<'a, 'b, 'c, F, L> {
        Repeating {
            session,
            folder,
            steps,
            told: Told {
                repeats: 0,
                stays: true,
            },
        }
    }

    pub fn told(&self) -> Told {
        self.told
    }

    // Prepares an edit, and sees whether the session stays where it isn't prepared.
    fn prepare(&mut self, alloc: Global, edit: &Edit) -> Result<(), EditStop> {
        let Ok(map) = Vec::from_slice(alloc, self.session.map()) else {
            return Err(EditStop::Memory);
        };
        let counts = self.session.counts();
        let made = self.session.prepare(alloc, edit, self.folder, self.steps);
        if made.is_err() {
            let stays = self.session.map() == map.as_slice()
                && self.session.counts() == counts
                && !self.session.pending();
            self.told.stays = self.told.stays && stays;
        }
        made
    }

    // Makes what is pending the state of the session, and says so.
    fn accept(&mut self, alloc: Global) -> Result<Bytes, EditorFault> {
        if self.session.pending() {
            self.session.commit();
        }
        let counts = self.session.counts();
        said(done_line(alloc, counts.modules, counts.requests, counts.mappings))
    }

    fn edit_again(&mut self, alloc: Global, edit: &Edit) -> Result<Bytes, EditorFault> {
        self.told.repeats = self.told.repeats.saturating_add(1);
        match self.prepare(alloc, edit) {
            Ok(()) => self.accept(alloc),
            Err(stop) => stopped(alloc, &stop),
        }
    }
}

impl<'a, 'b, 'c, F: Folder, L: Ledger> Editor for Repeating<'a, 'b, 'c, F, L> {
    ghost use Rattle.std.specs.Prelude.{[], None, false};

    ghost views = { λ editor view. ⊥ };

    ghost looks = { λ editor. record {
      folder = record { holds = None; asked = None; look_faults = 0; write_faults = 0 };
      kept = λ path. false;
      references = [];
    } };

    fn edit(&mut self, alloc: Global, edit: &Listed<Change>) -> Result<Bytes, EditorFault> {
        match self.prepare(alloc, edit) {
            Ok(()) => self.accept(alloc),
            Err(EditStop::ReadFault) => self.edit_again(alloc, edit),
            Err(EditStop::Memory) => self.edit_again(alloc, edit),
            Err(stop) => stopped(alloc, &stop),
        }
    }

    fn map(&self) -> &[u8] {
        self.session.map()
    }
}

// Says why an edit isn't made.
fn stopped(alloc: Global, stop: &EditStop) -> Result<Bytes, EditorFault> {
    match stop {
        EditStop::Change { fault } => said(edit_line(alloc, fault)),
        EditStop::Generation { why } => said(line_of(alloc, why)),
        EditStop::ReadFault => Err(EditorFault::ReadFault),
        EditStop::Memory => Err(EditorFault::Memory),
    }
}

fn said(line: Result<Vec<u8>, Memory>) -> Result<Bytes, EditorFault> {
    match line {
        Ok(bytes) => Ok(Bytes::from_vec(bytes)),
        Err(_) => Err(EditorFault::Memory),
    }
}
