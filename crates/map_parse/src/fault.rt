use import_map_spec::MapPart;
use std::alloc::AllocError;

/// Why a text has no map. A place is an offset in the text, in bytes.
#[derive(Clone, Copy, Debug, PartialEq, Eq)]
pub enum MapFault {
    /// It is no JSON text (RFC 8259): what begins at the place is no token, or one that can't stand there; or the text
    /// ends there too early.
    NotJson { at: usize },
    /// What must be an object is none.
    NotObject { which: MapPart },
    /// The bracket at the place would be the 129th that is open.
    TooDeep { at: usize },
    /// Want of memory.
    Memory,
}

impl From<AllocError> for MapFault {
    ghost use Rattle.std.specs.Prelude.{◌≡◌};
    ghost use Rattle.map_parse.specs.declared.fault.MapFault.TheVariants.{Memory};

    ghost from_gives = { λ _ e. e ≡ Memory };

    fn from(_: AllocError) -> MapFault {
        MapFault::Memory
    }
}
