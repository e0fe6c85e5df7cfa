ghost use Rattle.std.specs.Prelude.{◌≡◌, ◌+◌, None, Some, length};
ghost use Rattle.page_spec.specs.Faults.{comment_at};

/// The place of the first `<!--` in bytes that stand between two offsets.
pub(crate) fn comment_at(from: usize, to: usize, bytes: &[u8]) -> Option<usize>
    requires { from + length bytes.now ≡ to }
    ensures { result ≡ comment_at from bytes.now }
{
    let mut at = from;
    let mut rest = bytes;
    while let Some((b, more)) = rest.split_first() {
        if *b == b'<' && rest.starts_with(b"<!--") {
            return Some(at);
        }
        at += 1;
        rest = more;
    }
    None
}
