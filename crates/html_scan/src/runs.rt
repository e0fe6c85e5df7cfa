ghost use Rattle.std.specs.Prelude.{◌≡◌, ◌==◌, ◌||◌, [], ◌∷◌, length, if◌then◌else◌};
ghost use Rattle.std.specs.Char.{is_ascii_whitespace};
ghost use Rattle.page_spec.specs.Pieces.{ends_name};
ghost use Rattle.page_spec.specs.Attributes.{behind};
ghost use Rattle.html_scan.specs.Fronts.{test_of};

use crate::names::{ends_name, is_whitespace};

/// The bytes that end a run of others.
#[derive(Clone, Copy)]
pub enum End {
    /// What ends a tag name.
    TagName,
    /// What ends an attribute's name, behind its first byte.
    Name,
    /// That byte alone, as the closing quote of a value.
    At(u8),
    /// What ends a value without quotes.
    Unquoted,
}

fn ends(end: End, b: u8) -> bool
    ensures { result ≡ test_of end b }
{
    match end {
        End::TagName => ends_name(b),
        End::Name => ends_name(b) || b == b'=',
        End::At(byte) => b == byte,
        End::Unquoted => is_whitespace(b) || b == b'>',
    }
}

/// The bytes from their end on.
pub fn behind(end: End, bytes: &[u8]) -> &[u8]
    ensures { result.now ≡ behind (test_of end) bytes.now }
{
    let mut rest = bytes;
    while let Some((b, more)) = rest.split_first() {
        if ends(end, *b) {
            return rest;
        }
        rest = more;
    }
    rest
}
