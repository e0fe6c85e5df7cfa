//! Why the disk doesn't give or take what it is asked for.
use std::alloc::AllocError;
use std::{fmt, io};

/// What kept the disk from an answer.
#[derive(Debug, Drop)]
pub(crate) enum Obstacle {
    /// A symbolic link stands under this name.
    Link { name: String },
    /// What stands under this name is no file, no folder and no link.
    Special { name: String },
    /// The system's fault.
    System { error: io::Error },
}

impl From<io::Error> for Obstacle {
    fn from(error: io::Error) -> Obstacle {
        Obstacle::System { error }
    }
}

impl From<AllocError> for Obstacle {
    fn from(error: AllocError) -> Obstacle {
        Obstacle::System {
            error: io::Error::from(error),
        }
    }
}

/// Where the disk failed, and why. It is shown as the name on the disk, `: `, and the reason.
#[derive(Debug, Drop)]
pub struct Trouble {
    name: String,
    reason: Reason,
}

#[derive(Debug, Drop)]
enum Reason {
    SymbolicLink,
    SpecialFile,
    System { error: io::Error },
}

impl Trouble {
    /// The trouble that an obstacle makes to whoever asks for what stands under a name.
    pub(crate) fn of(obstacle: Obstacle, name: String) -> Trouble {
        match obstacle {
            Obstacle::Link { name } => Trouble {
                name,
                reason: Reason::SymbolicLink,
            },
            Obstacle::Special { name } => Trouble {
                name,
                reason: Reason::SpecialFile,
            },
            Obstacle::System { error } => Trouble {
                name,
                reason: Reason::System { error },
            },
        }
    }
}

impl fmt::Display for Trouble {
    fn fmt<W: fmt::Write>(&self, f: &mut fmt::Formatter<W>) -> fmt::Result {
        let name = self.name.as_str();
        match &self.reason {
            Reason::SymbolicLink => write!(f, "{name}: symbolic link"),
            Reason::SpecialFile => write!(f, "{name}: special file"),
            Reason::System { error } => write!(f, "{name}: {error}"),
        }
    }
}
