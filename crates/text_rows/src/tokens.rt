//! The tokens of a module text.

use es_lexer::{Kind, LexFault, LexKind, Lexer, Token};
use row_texts::Said;
use std::alloc::Global;

fn letter(kind: Kind) -> &'static str {
    match kind {
        Kind::Name => "N",
        Kind::Private => "H",
        Kind::Number => "D",
        Kind::Text => "S",
        Kind::TemplateWhole => "W",
        Kind::TemplateHead => "O",
        Kind::TemplateMiddle => "M",
        Kind::TemplateTail => "E",
        Kind::Regex => "R",
        Kind::Punctuator => "P",
    }
}

fn push_token(text: &str, token: Token, said: &mut Said) {
    let text = text.get(token.from..token.to).unwrap_or("no text");
    said.push(letter(token.kind));
    said.push(" ");
    said.push(text);
    said.push("  ");
}

fn push_fault(fault: LexFault, said: &mut Said) {
    match fault.kind {
        LexKind::Unreadable => said.push_place("! ", fault.at),
        LexKind::TooDeep => said.push_place("deep ", fault.at),
    }
}

fn push_tokens(text: &str, lexer: &mut Lexer<'_>, said: &mut Said) {
    for _ in 0..=text.len() {
        match lexer.next() {
            Ok(Some(token)) => push_token(text, token, said),
            Ok(None) => {
                said.push("end");
                return;
            }
            Err(fault) => {
                push_fault(fault, said);
                return;
            }
        }
    }
}

/// Each token as the letter of its kind and its text, and behind them `end` or the first fault. The letters: N a name,
/// H a private name, D a number, S a string, W O M E a whole template and its first, middle and last parts, R a regular
/// expression, P a punctuator; `!` and `deep` are the faults.
pub fn tell_tokens(alloc: Global, text: &str, said: &mut Said) {
    match Lexer::new(alloc, text) {
        Ok(mut lexer) => push_tokens(text, &mut lexer, said),
        Err(_) => said.push("memory"),
    }
}
