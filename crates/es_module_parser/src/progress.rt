ghost use Rattle.std.specs.Prelude.{◌≡◌, IfOk, IfSome};
ghost use Rattle.module_spec.specs.Spans.{IsSpan};
ghost use Rattle.module_spec.specs.StringValues.{string_value};
ghost use Rattle.es_module_parser.specs.Progress.{begun, may_begin, moved, moved_wrong, stepped, value_at, cut, ended};
ghost use Rattle.es_module_parser.specs.Progress.{fault_asked, requests_asked, or_outside};
ghost use Rattle.es_module_parser.specs.Progress.{progress_behind, requests_behind, progress_called, requests_called};
ghost use Rattle.es_module_parser.specs.Progress.{progress_heard, requests_heard};

use crate::expect::{Expect, Seen, Turn};
use crate::literals::string_value;
use crate::terminals::is_word;
use module_spec::{ModuleFault, Request, Token};
use shared_types::{Listed, Memory};
use std::alloc::Global;
use tree_spec::MOST_MODULE_REQUESTS;

/// Where the reading of a text stands.
#[derive(Clone, Copy, Debug, PartialEq, Eq)]
pub enum Progress {
    /// No declaration is being read.
    Outside,
    /// A declaration is being read: what comes, where its word stands, and the first fault inside of it, which counts
    /// where the declaration has its form: a word that would begin a declaration of its own has none there.
    Inside(Expect, usize, Option<ModuleFault>),
    /// This is the first fault, if no later token can't be read.
    Broken(ModuleFault),
}

/// Where it stands behind one token more.
#[derive(Clone, Copy, Debug, PartialEq, Eq)]
pub enum Next {
    Goes(Progress),
    /// The token is a module specifier.
    Specifier,
}

fn begin(seen: Seen, text: &[u8]) -> Progress
    ensures { result ≡ begun seen text.now }
{
    if seen.top && is_word(seen.kind, text, b"import".as_slice()) {
        Progress::Inside(Expect::ImportDeclaration, seen.from, None)
    } else if seen.top && is_word(seen.kind, text, b"export".as_slice()) {
        Progress::Inside(Expect::ExportDeclaration, seen.from, None)
    } else {
        Progress::Outside
    }
}

fn may_begin(seen: Seen, text: &[u8]) -> bool
    ensures { result ≡ may_begin seen text.now }
{
    seen.top
        && (is_word(seen.kind, text, b"import".as_slice())
            || is_word(seen.kind, text, b"export".as_slice()))
}

fn go(word: usize, turn: Turn, seen: Seen, text: &[u8]) -> Next
    ensures { result ≡ moved word turn seen text.now }
{
    match turn {
        Turn::Wrong => Next::Goes(Progress::Broken(ModuleFault::Unreadable { at: word })),
        Turn::Asked => Next::Specifier,
        Turn::Leave => Next::Goes(begin(seen, text)),
        Turn::Go(next) => {
            if may_begin(seen, text) {
                let fault = ModuleFault::Unreadable { at: seen.from };
                Next::Goes(Progress::Inside(next, word, Some(fault)))
            } else {
                Next::Goes(Progress::Inside(next, word, None))
            }
        }
    }
}

// The same where there is a fault inside: it is the first one, unless the declaration itself has no form.
fn go_wrong(word: usize, inner: ModuleFault, turn: Turn) -> Progress
    ensures { result ≡ moved_wrong word inner turn }
{
    match turn {
        Turn::Wrong => Progress::Broken(ModuleFault::Unreadable { at: word }),
        Turn::Asked => Progress::Broken(inner),
        Turn::Leave => Progress::Broken(inner),
        Turn::Go(next) => Progress::Inside(next, word, Some(inner)),
    }
}

// The value of a string becomes a request, or is a fault.
fn ask(
    alloc: Global,
    literal: &str,
    token: Token,
    asked: &mut Listed<Request>,
) -> Result<Option<ModuleFault>, Memory>
    ensures fault { IfOk result (λ f. f ≡ fault_asked token (string_value literal.now) asked.old) }
    ensures requests { IfOk result (λ f. asked.new ≡ requests_asked token (string_value literal.now) asked.old) }
{
    let Some(text) = string_value(alloc, literal)? else {
        return Ok(Some(ModuleFault::Unreadable { at: token.from }));
    };
    if asked.len() == MOST_MODULE_REQUESTS {
        return Ok(Some(ModuleFault::TooManyRequests));
    }
    asked.push(Request {
        from: token.from,
        to: token.to,
        text,
    })?;
    Ok(None)
}

fn or_outside(fault: Option<ModuleFault>) -> Progress
    ensures { result ≡ or_outside fault }
{
    match fault {
        None => Progress::Outside,
        Some(fault) => Progress::Broken(fault),
    }
}

impl Progress {
    /// Behind a token of this spelling.
    pub fn step(self, seen: Seen, text: &[u8]) -> Next
        ensures { result ≡ stepped self seen text.now }
    {
        match self {
            Progress::Outside => Next::Goes(begin(seen, text)),
            Progress::Broken(fault) => Next::Goes(Progress::Broken(fault)),
            Progress::Inside(expect, word, None) => go(word, expect.turn(seen, text), seen, text),
            Progress::Inside(expect, word, Some(inner)) => {
                Next::Goes(go_wrong(word, inner, expect.turn(seen, text)))
            }
        }
    }

    /// What is wrong where the text ends here.
    pub fn fault_at_end(self) -> Option<ModuleFault>
        ensures { result ≡ ended self }
    {
        match self {
            Progress::Outside => None,
            Progress::Broken(fault) => Some(fault),
            Progress::Inside(expect, word, inner) => match (cut(expect, word), inner) {
                (Some(fault), _) => Some(fault),
                (None, None) => None,
                (None, Some(inner)) => Some(inner),
            },
        }
    }

    fn call(
        self,
        alloc: Global,
        literal: &str,
        token: Token,
        asked: &mut Listed<Request>,
    ) -> Result<Progress, Memory>
        ensures progress { IfOk result (λ p. p ≡ progress_called self token (string_value literal.now) asked.old) }
        ensures asked { IfOk result (λ p. asked.new ≡ requests_called self token (string_value literal.now) asked.old) }
    {
        match self {
            Progress::Outside => Ok(or_outside(ask(alloc, literal, token, asked)?)),
            Progress::Inside(expect, word, None) => {
                let inner = ask(alloc, literal, token, asked)?;
                Ok(Progress::Inside(expect, word, inner))
            }
            Progress::Inside(expect, word, Some(inner)) => {
                Ok(Progress::Inside(expect, word, Some(inner)))
            }
            Progress::Broken(fault) => Ok(Progress::Broken(fault)),
        }
    }

    /// Where it stands, with what was asked for so far, where the string of an import call, if there is one, ends the
    /// call's first argument.
    pub fn heard(
        self,
        alloc: Global,
        text: &str,
        called: Option<Token>,
        asked: &mut Listed<Request>,
    ) -> Result<Progress, Memory>
        requires { IfSome called (λ token. IsSpan text.now token) }
        ensures progress { IfOk result (λ p. p ≡ progress_heard self text.now called asked.old) }
        ensures asked { IfOk result (λ p. asked.new ≡ requests_heard self text.now called asked.old) }
    {
        match called {
            None => Ok(self),
            Some(token) => self.call(alloc, &text[token.from..token.to], token, asked),
        }
    }
}

impl Next {
    /// Where the reading stands behind the token, with what it asked for so far.
    pub fn progress(
        self,
        alloc: Global,
        text: &str,
        token: Token,
        asked: &mut Listed<Request>,
    ) -> Result<Progress, Memory>
        requires { IsSpan text.now token }
        ensures progress { IfOk result (λ p. p ≡ progress_behind self token (value_at text.now token) asked.old) }
        ensures asked { IfOk result (λ p. asked.new ≡ requests_behind self token (value_at text.now token) asked.old) }
    {
        match self {
            Next::Goes(progress) => Ok(progress),
            Next::Specifier => Ok(or_outside(ask(
                alloc,
                &text[token.from..token.to],
                token,
                asked,
            )?)),
        }
    }
}

// A declaration that the text's end cuts off; braces alone are one.
fn cut(expect: Expect, word: usize) -> Option<ModuleFault>
    ensures { result ≡ cut expect word }
{
    match expect {
        Expect::NamedExports => None,
        Expect::NamedSpecifier => None,
        _ => Some(ModuleFault::Unreadable { at: word }),
    }
}
