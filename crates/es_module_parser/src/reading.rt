ghost use Rattle.std.specs.Prelude.{◌≡◌, ◌+◌, ◌||◌, not, bytes_eq, codes, Ok, IfOk, IfErr};
ghost use Rattle.std.specs.Bool.{OnTrue};
ghost use Rattle.module_spec.specs.Outlines.{ReadsOutline};
ghost use Rattle.es_module_parser.specs.Faults.{IsFaultOf, lexical_fault};
ghost use Rattle.es_module_parser.specs.Declaring.{declares_at_end};
ghost use Rattle.es_module_parser.specs.Outlines.{as_outline, EndsAs};
ghost use Rattle.es_module_parser.specs.Progress.{IsIdle, seen_at, ended};

use crate::declaring::After;
use crate::expect::Seen;
use crate::fault::OutlineFault;
use crate::progress::Progress;
use crate::requests::{Outline, Requests};
use crate::terminals::is_name;
use es_lexer::{LexFault, LexKind, Lexer};
use module_spec::{Kind, Request, Token};
use shared_types::{Listed, Steps};
use std::alloc::Global;
use std::sync::ledger::Ledger;

fn lexical(fault: LexFault) -> OutlineFault
    ensures { result ≡ lexical_fault fault.at fault.kind }
{
    match fault.kind {
        LexKind::Unreadable => OutlineFault::Unreadable { at: fault.at },
        LexKind::TooDeep => OutlineFault::TooDeep,
    }
}

// The token in its place: no property's name where it is plain, so many brackets before it, and so many behind it.
fn seen_at(token: Token, plain: bool, depth: usize, behind: usize) -> Seen
    ensures { result ≡ seen_at token plain depth behind }
{
    Seen {
        kind: token.kind,
        from: token.from,
        plain,
        top: plain && depth == 0,
        behind,
    }
}

// Whether a text is one of the two words, which have six bytes.
fn begins_declaration(text: &[u8]) -> bool
    ensures { result ≡ (bytes_eq text.now (codes "import") || bytes_eq text.now (codes "export")) }
{
    if text.len() != 6 {
        return false;
    }
    text == b"import".as_slice() || text == b"export".as_slice()
}

// Between declarations and calls a token that is neither of their words changes nothing.
fn is_idle(progress: Progress, after: After, kind: Kind, text: &[u8]) -> bool
    ensures { OnTrue result (IsIdle progress after kind text.now) }
{
    match progress {
        Progress::Inside(_, _, _) => false,
        Progress::Broken(_) => false,
        Progress::Outside => match after {
            After::Import(_) => false,
            After::Dot => false,
            After::Call => false,
            After::Argument(_) => false,
            After::Other => !(is_name(kind) && begins_declaration(text)),
        },
    }
}

// What the text has where it ends here.
fn outline_at_end(
    progress: Progress,
    asked: Listed<Request>,
    after: After,
    declares: bool,
) -> Result<Outline, OutlineFault>
    ensures { EndsAs (ended progress) asked (declares || declares_at_end after) result }
{
    match progress.fault_at_end() {
        Some(fault) => Err(OutlineFault::from(fault)),
        None => Ok(Outline {
            requests: Requests::of(asked),
            declares: after.declares_at_end(declares),
        }),
    }
}

/// What the text asks for, or its first fault: one among its tokens goes before any other, and then the first in the
/// text. It takes one step.
pub fn outline<L: Ledger>(
    alloc: Global,
    text: &str,
    steps: &mut Steps<L>,
) -> Result<Outline, OutlineFault>
    ensures outline { IfOk result (λ outline. ReadsOutline text.now (Ok (as_outline outline))) }
    ensures fault { IfErr result (λ fault. IsFaultOf text.now fault) }
    ensures cost { steps.new ≡ steps.old + 1 }
{
    steps.tick();
    let bytes = text.as_bytes();
    let mut lexer = Lexer::new(alloc, text)?;
    let mut asked = Listed::new(alloc);
    let mut progress = Progress::Outside;
    let mut after = After::Other;
    let mut declares = false;
    'read: loop {
        let plain = !lexer.before_property();
        let depth = lexer.depth();
        match lexer.next() {
            Err(fault) => return Err(lexical(fault)),
            Ok(None) => return outline_at_end(progress, asked, after, declares),
            Ok(Some(token)) => {
                let spelled = &bytes[token.from..token.to];
                if is_idle(progress, after, token.kind, spelled) {
                    continue;
                }
                let seen = seen_at(token, plain, depth, lexer.depth());
                let called = after.call(seen, spelled);
                let heard = progress.heard(alloc, text, called, &mut asked)?;
                declares = after.declares(declares, seen, spelled);
                after = after.token(token, seen, spelled);
                let next = heard.step(seen, spelled);
                progress = next.progress(alloc, text, token, &mut asked)?;
            }
        }
    }
}
