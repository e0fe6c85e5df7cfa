//! What a path and a tree of files are, and what a look at a path answers: definitions and their laws alone.
#![tactic(auto)]

mod laws;
mod limits;

pub use laws::{
    copy_is_thinned, ends_counted, first_limit_stops, folder_is_parent, folders_climb,
    footprint_is_set, footprints_join, look_examples, one_look, one_parent, one_placing,
    placing_in_folder, placing_in_root, placing_keeps_tree, root_alone, same_by_footprint,
    same_limited, spared_same,
};
pub use limits::{
    MOST_BRACKETS, MOST_BYTES, MOST_CHOICES, MOST_DEPTH, MOST_ENTRIES, MOST_FILE_BYTES, MOST_LOOKS,
    MOST_MAP_BYTES, MOST_MODULE_REQUESTS, MOST_MODULES, MOST_REQUESTS, MOST_SESSION_BYTES,
    MOST_SPECIFIER_BYTES,
};
use shared_types::Bytes;
use std::alloc::AllocError;

/// What stands at a path of a tree.
#[derive(Drop)]
pub enum Entry {
    /// A file with its bytes.
    Stored(Bytes),
    /// A folder.
    Directory,
}

/// What a look at a path answers.
#[derive(Drop)]
pub enum Look {
    /// Nothing stands there.
    Absent,
    /// A folder stands there.
    Folder,
    /// A file stands there, with these bytes.
    File(Bytes),
    /// A file stands there that has more bytes than the look allowed.
    TooLarge,
}

/// Why a look has no answer.
#[derive(Clone, Copy, Debug, PartialEq, Eq)]
pub enum LookFault {
    /// What is outside failed, and counted it.
    Failed,
    /// Want of memory.
    Memory,
}

impl From<AllocError> for LookFault {
    ghost use Rattle.std.specs.Prelude.{◌≡◌};
    ghost use Rattle.tree_spec.specs.declared.LookFault.TheVariants.{Memory};

    ghost from_gives = { λ _ fault. fault ≡ Memory };

    fn from(_: AllocError) -> Self {
        LookFault::Memory
    }
}

/// The quantities that have a limit, in the order in which they are listed to a user.
#[derive(Clone, Copy, Debug, PartialEq, Eq)]
pub enum LimitName {
    /// Bytes of one file that is looked at.
    File,
    /// Bytes of all files that a generation looks at.
    Bytes,
    /// Paths that a generation looks at.
    Looks,
    /// Modules of a trace, without the page.
    Modules,
    /// Requests of one module.
    ModuleRequests,
    /// Requests of the page and of all modules.
    Requests,
    /// Bytes of one specifier.
    Specifier,
    /// Entries of a project.
    Entries,
    /// Brackets that are open at once in a module.
    Brackets,
    /// Brackets that are open at once in a JSON text.
    Depth,
    /// Bytes of the input of a session.
    Session,
    /// Bytes of a printed map.
    Map,
    /// Choices among layouts.
    Choices,
}
