use std::alloc::{AllocError, AllocFailed};

/// Why a text has no value. A place is an offset in the text, in bytes.
#[derive(Clone, Copy, Debug, Drop, PartialEq, Eq)]
pub enum JsonFault {
    /// It is no JSON text (RFC 8259): what begins at the place is no token, or one that can't stand there; or the text
    /// ends there too early.
    NotJson { at: usize },
    /// The bracket at the place would be the 129th that is open.
    TooDeep { at: usize },
    /// Want of memory.
    Memory,
}

/// Why a reader of the front of a text stops. A place is the number of bytes from it to the end.
#[derive(Clone, Copy, Debug, Drop)]
pub enum Stop {
    Unreadable(usize),
    Deep(usize),
    NoMemory,
}

impl From<AllocError> for Stop {
    ghost use Rattle.std.specs.Prelude.{◌≡◌};
    ghost use Rattle.ordered_json.specs.declared.fault.Stop.TheVariants.{NoMemory};

    ghost from_gives = { λ _ stop. stop ≡ NoMemory };

    fn from(_: AllocError) -> Stop {
        Stop::NoMemory
    }
}

impl<T: Drop> From<AllocFailed<T>> for Stop {
    ghost use Rattle.std.specs.Prelude.{◌≡◌};
    ghost use Rattle.ordered_json.specs.declared.fault.Stop.TheVariants.{NoMemory};

    ghost from_gives = { λ _ stop. stop ≡ NoMemory };

    fn from(_: AllocFailed<T>) -> Stop {
        Stop::NoMemory
    }
}
