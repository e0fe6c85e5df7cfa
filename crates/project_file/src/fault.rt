use std::alloc::AllocError;
use tree_spec::LimitName;

/// Why bytes give no config.
#[derive(Clone, Copy, Debug, PartialEq, Eq)]
pub enum ProjectFault {
    /// They aren't the file of a project. The place is that of the fault of a JSON text, an offset in bytes, and 0 for
    /// every other reason.
    BadFile { at: usize },
    /// There are too many entries, or too many brackets are open at once.
    Limit { which: LimitName },
    /// Want of memory.
    Memory,
}

impl From<AllocError> for ProjectFault {
    ghost use Rattle.std.specs.Prelude.{◌≡◌};
    ghost use Rattle.project_file.specs.declared.fault.ProjectFault.TheVariants.{Memory};

    ghost from_gives = { λ _ fault. fault ≡ Memory };

    fn from(_: AllocError) -> ProjectFault {
        ProjectFault::Memory
    }
}
