//! The limits: the number that each quantity may not pass, and the name under which it is printed.
ghost use Rattle.std.specs.Prelude.{◌≡◌};
ghost use Rattle.tree_spec.specs.Limits.{limit_name, limit_number};

use crate::LimitName;

/// Bytes of one file that is looked at.
pub const MOST_FILE_BYTES: u64 = 16_777_216;
/// Bytes of all files that a generation looks at.
pub const MOST_BYTES: u64 = 268_435_456;
/// Paths that a generation looks at.
pub const MOST_LOOKS: usize = 400_000;
/// Modules of a trace, without the page.
pub const MOST_MODULES: usize = 20_000;
/// Requests of one module.
pub const MOST_MODULE_REQUESTS: usize = 4_096;
/// Requests of the page and of all modules.
pub const MOST_REQUESTS: usize = 200_000;
/// Bytes of one specifier.
pub const MOST_SPECIFIER_BYTES: usize = 4_096;
/// Entries of a project.
pub const MOST_ENTRIES: usize = 1_024;
/// Brackets that are open at once in a module.
pub const MOST_BRACKETS: usize = 4_096;
/// Brackets that are open at once in a JSON text.
pub const MOST_DEPTH: usize = 128;
/// Bytes of the input of a session.
pub const MOST_SESSION_BYTES: u64 = 268_435_456;
/// Bytes of a printed map.
pub const MOST_MAP_BYTES: usize = 67_108_864;
/// Choices among layouts.
pub const MOST_CHOICES: usize = 16_777_216;

impl LimitName {
    /// The number that the quantity may not pass.
    pub fn number(self) -> u64
        ensures { result ≡ limit_number self }
    {
        match self {
            LimitName::File => MOST_FILE_BYTES,
            LimitName::Bytes => MOST_BYTES,
            LimitName::Looks => MOST_LOOKS as u64,
            LimitName::Modules => MOST_MODULES as u64,
            LimitName::ModuleRequests => MOST_MODULE_REQUESTS as u64,
            LimitName::Requests => MOST_REQUESTS as u64,
            LimitName::Specifier => MOST_SPECIFIER_BYTES as u64,
            LimitName::Entries => MOST_ENTRIES as u64,
            LimitName::Brackets => MOST_BRACKETS as u64,
            LimitName::Depth => MOST_DEPTH as u64,
            LimitName::Session => MOST_SESSION_BYTES,
            LimitName::Map => MOST_MAP_BYTES as u64,
            LimitName::Choices => MOST_CHOICES as u64,
        }
    }

    /// The name under which the quantity is printed.
    pub fn name(self) -> &'static str
        ensures { result.now ≡ limit_name self }
    {
        match self {
            LimitName::File => "file",
            LimitName::Bytes => "bytes",
            LimitName::Looks => "looks",
            LimitName::Modules => "modules",
            LimitName::ModuleRequests => "module-requests",
            LimitName::Requests => "requests",
            LimitName::Specifier => "specifier",
            LimitName::Entries => "entries",
            LimitName::Brackets => "brackets",
            LimitName::Depth => "depth",
            LimitName::Session => "session",
            LimitName::Map => "map",
            LimitName::Choices => "choices",
        }
    }
}
