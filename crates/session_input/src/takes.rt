ghost use Rattle.std.specs.Prelude.{◌<◌, length};
ghost use Rattle.session_input.specs.Readers.{Fills, ComesBeyond};

use crate::reading::InputFault;
use tree_model::Source;

/// What a take brought.
#[derive(Clone, Copy)]
pub(crate) enum Came {
    /// Further bytes.
    Bytes,
    /// Nothing: the input is at its end.
    Nothing,
    /// A byte behind all that may be read.
    Beyond,
}

/// One byte more, where there is one.
pub(crate) fn beyond<I: Source>(input: &mut I) -> Result<Came, InputFault>
    ensures { ComesBeyond (I.state input.old) (I.state input.new) result }
{
    let mut one = [0_u8; 1];
    match fill(input, one.as_mut_slice(), 1) {
        Err(fault) => Err(fault),
        Ok(count) => {
            if count == 0 {
                Ok(Came::Nothing)
            } else {
                Ok(Came::Beyond)
            }
        }
    }
}

/// Takes at most so many bytes into the front of a piece.
pub(crate) fn fill<I: Source>(
    input: &mut I,
    piece: &mut [u8],
    most: usize,
) -> Result<usize, InputFault>
    requires { (0 < most) × (0 < length piece.old) }
    ensures { Fills (I.state input.old) most piece.new result (I.state input.new) }
{
    let end = most.min(piece.len());
    match input.take(&mut piece[..end]) {
        Ok(count) => Ok(count),
        Err(_) => Err(InputFault::ReadFault),
    }
}
