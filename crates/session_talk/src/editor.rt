ghost use Rattle.session_talk.specs.EditorLooks.{LookState, EditAsks};
ghost use Rattle.session_talk.specs.Editors.{EditorState, EditsFrom, Shows};

use session_spec::Change;
use shared_types::{Bytes, Listed};
use std::alloc::Global;

/// Why nothing comes of an edit.
#[derive(Clone, Copy, Debug, PartialEq, Eq)]
pub enum EditorFault {
    /// A look failed.
    ReadFault,
    /// Want of memory.
    Memory,
}

/// Who makes the edits of a session.
pub trait Editor {
    /// Whether this is the session's state, where it is told, and how many looks failed; and what was shown.
    ghost views: { Self → EditorState → Type 0 };

    /// What the folder tells at which edits look, and what is kept of it.
    ghost looks: { Self → LookState };

    /// Makes an edit, shows what comes of it where it is accepted, and gives the line that is replied.
    fn edit(&mut self, alloc: Global, edit: &Listed<Change>) -> Result<Bytes, EditorFault>
        ensures edits { EditsFrom (views self.old) edit.now result (views self.new) }
        ensures asks { EditAsks (looks self.old) result (looks self.new) };

    /// The bytes of the map.
    fn map(&self) -> &[u8]
        ensures shows { (state : EditorState) → views self.now state → Shows state result.now };
}
