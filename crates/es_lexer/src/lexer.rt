ghost use Rattle.std.specs.Prelude.{◌≡◌, List, IfOk};
ghost use Rattle.module_spec.specs.Spellings.{hashbang_rest};
ghost use Rattle.module_spec.specs.Tokens.{Lexeme, Reaches, depth, is_property};
ghost use Rattle.es_lexer.specs.Open.{top_bracket};
ghost use Rattle.es_lexer.specs.Steps.{ReadsNext};

use crate::look::look;
use crate::sorts::kind_of;
use crate::spellings::{hashbang_rest, skip};
use crate::state::{Last, Open, change, top_of};
use module_spec::{Bracket, LexFault, Token};
use shared_types::Memory;
use std::alloc::Global;
use std::marker::Model;
use tree_spec::MOST_BRACKETS;

/// The reader of a module text's tokens. A contract sees it as the text and what is left of it.
#[derive(Drop)]
pub struct Lexer<'a> {
    whole: &'a [u8],
    rest: &'a [u8],
    last: Last,
    stack: Vec<Open>,
}

impl<'a> Model for Lexer<'a> {
    ghost use Rattle.std.specs.Prelude.{List, ℕ, vec_capacity};
    ghost use Rattle.es_lexer.specs.State.{IsLexer};

    ghost Value = { List ℕ × List ℕ };

    ghost view = { λ l. (l.whole.now, l.rest.now) };

    ghost invariant = { λ l. IsLexer l.whole.now l.rest.now l.last l.stack.items (vec_capacity l.stack) };
}

fn bracket_of(top: Option<Open>) -> Option<Bracket>
    ensures { result ≡ top_bracket top }
{
    match top {
        None => None,
        Some(open) => Some(open.bracket()),
    }
}

impl<'a> Lexer<'a> {
    /// A reader that stands at the start of the text, behind a first line that begins with `#!`.
    pub fn new(alloc: Global, text: &'a str) -> Result<Lexer<'a>, Memory>
        ensures { IfOk result (λ lexer. lexer ≡ (text.now, hashbang_rest text.now)) }
    {
        let whole = text.as_bytes();
        let stack = Vec::with_capacity(alloc, MOST_BRACKETS)?;
        Ok(Lexer {
            whole,
            rest: hashbang_rest(whole),
            last: Last::none(),
            stack,
        })
    }

    /// The next token, None at the text's end, or the text's first fault. At the end and at a fault the reader stays
    /// where it is, so that each later call answers the same.
    pub fn next(&mut self) -> Result<Option<Token>, LexFault>
        ensures { ReadsNext self.old self.new result }
    {
        let bytes = skip(self.rest);
        let top = top_of(self.stack.as_slice());
        let depth = self.stack.as_slice().len();
        match look(self.last, bracket_of(top), depth, bytes) {
            Err(kind) => Err(LexFault {
                at: self.whole.len() - bytes.len(),
                kind,
            }),
            Ok(None) => Ok(None),
            Ok(Some((sort, rest))) => {
                let text = &bytes[..bytes.len() - rest.len()];
                let last = self.last.follow(top, sort, text);
                change(&mut self.stack, self.last, sort);
                self.last = last;
                self.rest = rest;
                let from = self.whole.len() - bytes.len();
                Ok(Some(Token {
                    kind: kind_of(sort),
                    from,
                    to: from + text.len(),
                }))
            }
        }
    }

    /// The number of brackets that are open behind the tokens that were given.
    pub fn depth(&self) -> usize
        ensures { (before : List Lexeme) × Reaches self.now.0 before self.now.1 × (result ≡ depth before) }
    {
        self.stack.as_slice().len()
    }

    /// Whether the last token that was given is `.` or `?.`, so that a name behind it is the name of a property.
    /// ECMA-262, 13.3.
    pub fn before_property(&self) -> bool
        ensures { (before : List Lexeme) × Reaches self.now.0 before self.now.1 × (result ≡ is_property before) }
    {
        self.last.names_property()
    }
}
