ghost use Rattle.std.specs.Prelude.{◌≡◌, Ok, Err, IfOk, IfErr};
ghost use Rattle.module_spec.specs.declared.token.LexFault.{LexFault};
ghost use Rattle.module_spec.specs.Tokens.{ReadsTokens};

use crate::lexer::Lexer;
use module_spec::{LexFault, Token};
use shared_types::Listed;
use std::alloc::{AllocError, Global};

/// Why a text's tokens aren't listed.
#[derive(Clone, Copy, Debug, PartialEq, Eq)]
pub enum TokensFault {
    /// The text's first fault.
    Lexical(LexFault),
    /// Want of memory.
    Memory,
}

impl From<AllocError> for TokensFault {
    ghost use Rattle.std.specs.Prelude.{◌≡◌};
    ghost use Rattle.es_lexer.specs.declared.whole.TokensFault.TheVariants.{Memory};

    ghost from_gives = { λ _ fault. fault ≡ Memory };

    fn from(_memory: AllocError) -> TokensFault {
        TokensFault::Memory
    }
}

/// All tokens of a text in their order, or its first fault.
pub fn tokens_of(alloc: Global, text: &str) -> Result<Listed<Token>, TokensFault>
    ensures tokens { IfOk result (λ tokens. ReadsTokens text.now (Ok tokens)) }
    ensures fault { IfErr result (λ e. (fault : LexFault) → e ≡ TokensFault.Lexical fault
        → ReadsTokens text.now (Err fault)) }
{
    let mut lexer = Lexer::new(alloc, text)?;
    let mut tokens = Listed::new(alloc);
    'read: loop {
        match lexer.next() {
            Err(fault) => return Err(TokensFault::Lexical(fault)),
            Ok(None) => return Ok(tokens),
            Ok(Some(token)) => tokens.push(token)?,
        }
    }
}
