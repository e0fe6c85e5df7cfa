use std::alloc::AllocError;

/// Why a specifier has no URL.
#[derive(Clone, Copy, Debug, PartialEq, Eq)]
pub enum HtmlFault {
    /// The address of the key that answers is null.
    Blocked,
    /// It is no URL, and no key applies to it.
    Bare,
    /// The URL leads out of the address of the key.
    Backtrack,
    /// What follows the key is no URL against the address of the key.
    BadRest,
    /// Want of memory.
    Memory,
}

impl From<AllocError> for HtmlFault {
    ghost use Rattle.std.specs.Prelude.{◌≡◌};
    ghost use Rattle.html_resolve.specs.declared.html_fault.HtmlFault.TheVariants.{Memory};

    ghost from_gives = { λ _ e. e ≡ Memory };

    fn from(_: AllocError) -> HtmlFault {
        HtmlFault::Memory
    }
}
