ghost use Rattle.std.specs.Prelude.{◌≡◌, ◌||◌};
ghost use Rattle.es_module_parser.specs.Declaring.{expression_begins, shows, declares_now, declares_at_end};
ghost use Rattle.es_module_parser.specs.Declaring.{after_import, after_next, after_token, call_at};

use crate::expect::Seen;
use crate::terminals::{is_mark, is_text, is_word};
use module_spec::Token;

/// What the last tokens were, for whether the text is a module's, and for its import calls.
#[derive(Clone, Copy, Debug, PartialEq, Eq)]
pub enum After {
    /// Nothing that matters.
    Other,
    /// The word `import`; true where a declaration may begin with it.
    Import(bool),
    /// The word `import` and a `.`.
    Dot,
    /// The word `import` and a `(`.
    Call,
    /// These and this string.
    Argument(Token),
}

// `import(` is a call, and `import.` a property. ECMA-262, 13.3.
fn expression_begins(seen: Seen, text: &[u8]) -> bool
    ensures { result ≡ expression_begins seen text.now }
{
    is_mark(seen.kind, text, b"(".as_slice()) || is_mark(seen.kind, text, b".".as_slice())
}

fn after_import(seen: Seen, text: &[u8]) -> After
    ensures { result ≡ after_import seen text.now }
{
    if is_mark(seen.kind, text, b".".as_slice()) {
        After::Dot
    } else if is_mark(seen.kind, text, b"(".as_slice()) {
        After::Call
    } else {
        After::Other
    }
}

impl After {
    fn shows(self, seen: Seen, text: &[u8]) -> bool
        ensures { result ≡ shows self seen text.now }
    {
        match self {
            After::Other => false,
            After::Import(top) => top && !expression_begins(seen, text),
            After::Dot => is_word(seen.kind, text, b"meta".as_slice()),
            After::Call => false,
            After::Argument(_) => false,
        }
    }

    fn next(self, token: Token, seen: Seen, text: &[u8]) -> After
        ensures { result ≡ after_next self token seen text.now }
    {
        match self {
            After::Other => After::Other,
            After::Import(_) => after_import(seen, text),
            After::Dot => After::Other,
            After::Call => {
                if is_text(seen.kind) {
                    After::Argument(token)
                } else {
                    After::Other
                }
            }
            After::Argument(_) => After::Other,
        }
    }

    /// Whether the text is a module's, by the tokens before or by this one: by a declaration, or by `import.meta`.
    pub fn declares(self, before: bool, seen: Seen, text: &[u8]) -> bool
        ensures { result ≡ (before || declares_now self seen text.now) }
    {
        before
            || (self.shows(seen, text)
                || seen.top && is_word(seen.kind, text, b"export".as_slice()))
    }

    /// What the last tokens are behind this one.
    pub fn token(self, token: Token, seen: Seen, text: &[u8]) -> After
        ensures { result ≡ after_token self token seen text.now }
    {
        if seen.plain && is_word(seen.kind, text, b"import".as_slice()) {
            After::Import(seen.top)
        } else {
            self.next(token, seen, text)
        }
    }

    /// The string of an import call, where this token ends the call's first argument.
    pub fn call(self, seen: Seen, text: &[u8]) -> Option<Token>
        ensures { result ≡ call_at self seen text.now }
    {
        match self {
            After::Other => None,
            After::Import(_) => None,
            After::Dot => None,
            After::Call => None,
            After::Argument(token) => {
                if is_mark(seen.kind, text, b")".as_slice())
                    || is_mark(seen.kind, text, b",".as_slice())
                {
                    Some(token)
                } else {
                    None
                }
            }
        }
    }

    /// Whether the text is a module's where it ends here.
    pub fn declares_at_end(self, before: bool) -> bool
        ensures { result ≡ (before || declares_at_end self) }
    {
        match self {
            After::Other => before || false,
            After::Import(top) => before || top,
            After::Dot => before || false,
            After::Call => before || false,
            After::Argument(_) => before || false,
        }
    }
}
