use module_spec::Request;
use shared_types::Listed;

/// What the statement grammar says of a module text, beside its outline.
#[derive(Drop)]
pub enum Strict {
    /// It matches the whole text, and asks for what the outline has.
    Agrees,
    /// It doesn't match: the place, in bytes, of the first token that can't stand where it stands, or the text's
    /// length.
    Syntax {
        at: usize,
    },
    /// It matches the whole text, and asks for something else.
    Differs {
        strict: Listed<Request>,
        outline: Listed<Request>,
    },
    /// More forms would be open than may be.
    TooDeep,
}
