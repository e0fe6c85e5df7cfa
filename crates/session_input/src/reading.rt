use session_spec::Change;
use shared_types::Memory;

/// What a line asks for.
#[derive(Drop)]
pub enum Order {
    /// A change.
    Change { change: Change },
    /// That the changes from here on are made together.
    Begin,
    /// That they are made.
    Commit,
    /// The map.
    Map,
    /// The end of the session.
    End,
}

/// What is read at the first unread line.
#[derive(Drop)]
pub enum Reading {
    /// A line with a meaning.
    Ordered { order: Order },
    /// A line without one.
    Malformed,
    /// The input ends within the line.
    Ended,
    /// The line isn't whole in the bytes that are read at most, and more come.
    TooLong,
}

/// Why nothing is read.
#[derive(Clone, Copy, Debug, PartialEq, Eq)]
pub enum InputFault {
    /// The source failed.
    ReadFault,
    /// Want of memory.
    Memory,
}

impl From<Memory> for InputFault {
    ghost use Rattle.std.specs.Prelude.{◌≡◌};
    ghost use Rattle.session_input.specs.declared.reading.InputFault.TheVariants.{Memory};

    ghost from_gives = { λ _ fault. fault ≡ Memory };

    fn from(_: Memory) -> Self {
        InputFault::Memory
    }
}
