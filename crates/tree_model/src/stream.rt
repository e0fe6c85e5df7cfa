ghost use Rattle.tree_spec.specs.States.{SourceState, SinkState, IsTaken, IsGiven};

/// What is outside failed, and counted it.
#[derive(Clone, Copy, Debug, PartialEq, Eq)]
pub struct Failed;

/// A source of bytes.
pub trait Source {
    /// The bytes still to come and how many the last take brought, where they are told, and how many calls failed, up to
    /// the last number of its type.
    ghost state: { Self → SourceState };

    /// Moves what comes next into the beginning of `into`, and says how many bytes that was. None, although `into` has
    /// room, means that nothing is left.
    fn take(&mut self, into: &mut [u8]) -> Result<usize, Failed>
        ensures taken { IsTaken (state self.old) into.old into.new result (state self.new) };
}

/// A sink of bytes.
pub trait Sink {
    /// The bytes taken so far, where they are told, and how many calls failed, up to the last number of its type.
    ghost state: { Self → SinkState };

    /// Takes all bytes, or fails after a front of them has gone out.
    fn give(&mut self, bytes: &[u8]) -> Result<(), Failed>
        ensures given { IsGiven (state self.old) bytes.now result (state self.new) };
}
