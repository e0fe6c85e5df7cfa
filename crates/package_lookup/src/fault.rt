use std::alloc::AllocError;
use tree_spec::LimitName;

/// Why a question has no answer.
#[derive(Clone, Copy, Debug, PartialEq, Eq)]
pub enum LookupFault {
    /// A look at the folder failed, and the folder counted it.
    ReadFault,
    /// A look passes a limit, or a package.json has more open brackets than are read.
    Limit { which: LimitName },
    /// The package.json that was asked for isn't well formed.
    InvalidConfig,
    /// Want of memory.
    Memory,
}

impl From<AllocError> for LookupFault {
    ghost use Rattle.std.specs.Prelude.{◌≡◌};
    ghost use Rattle.package_lookup.specs.declared.fault.LookupFault.TheVariants.{Memory};

    ghost from_gives = { λ _ fault. fault ≡ Memory };

    fn from(_: AllocError) -> Self {
        LookupFault::Memory
    }
}
