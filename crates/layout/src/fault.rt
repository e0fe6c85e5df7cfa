use shared_types::Memory;

/// Why needs have no layout.
#[derive(Clone, Copy, Debug, PartialEq, Eq)]
pub enum LayoutFault {
    /// Of some specifier the places of the referrers that need it, times its targets, are too many.
    TooManyChoices,
    /// Want of memory.
    Memory,
}

impl From<Memory> for LayoutFault {
    ghost use Rattle.std.specs.Prelude.{◌≡◌};
    ghost use Rattle.layout.specs.declared.fault.LayoutFault.TheVariants.{Memory};

    ghost from_gives = { λ _ fault. fault ≡ Memory };

    fn from(_: Memory) -> Self {
        LayoutFault::Memory
    }
}
