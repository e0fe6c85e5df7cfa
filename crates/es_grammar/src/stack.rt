ghost use Rattle.std.specs.Prelude.{◌≡◌, [], ◌∷◌, IfOk, MatchOption};
ghost use Rattle.es_grammar.specs.Pending.{pending};

use grammar_spec::Context;
use grammar_table::Node;
use shared_types::Memory;
use std::alloc::Global;

/// What is to be done when a form has given its outcome.
#[derive(Clone, Copy)]
pub enum Frame {
    /// The second of two forms.
    Then(&'static Node<'static>),
    /// The other choice.
    Or(&'static Node<'static>),
    /// The form may come.
    Maybe,
    /// The form may come again.
    Many(&'static Node<'static>),
    /// It may come again, and it came before.
    More(&'static Node<'static>),
    /// The rule has taken tokens.
    Behind,
    /// One string literal from this token on would be a request.
    Asks(usize),
    /// So many forms were open, and so the operator `in` was meant.
    Back(Context),
}

/// What is to be done, the next thing last.
#[derive(Drop)]
pub struct Stack {
    pub frames: Vec<Frame>,
}

impl Stack {
    pub fn new(alloc: Global) -> Stack
        ensures { pending result ≡ [] }
    {
        Stack {
            frames: Vec::new(alloc),
        }
    }

    pub fn push(&mut self, frame: Frame) -> Result<(), Memory>
        ensures { IfOk result (λ _. pending self.new ≡ frame ∷ pending self.old) }
    {
        self.frames.push(frame)?;
        Ok(())
    }

    pub fn pop(&mut self) -> Option<Frame>
        ensures { MatchOption result (pending self.old ≡ []) (λ frame. pending self.old ≡ frame ∷ pending self.new) }
    {
        self.frames.pop()
    }
}
