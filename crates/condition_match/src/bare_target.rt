ghost use Rattle.std.specs.Prelude.{List, ℕ, IfOk, OnErr};
ghost use Rattle.node_spec.specs.declared.BareAnswer.{BareAnswer};

use node_spec::BareAnswer;
use shared_types::Memory;
use std::alloc::Global;

/// What answers a bare text that a target names, and keeps what was found or why it stopped.
pub trait BareTarget {
    /// What a call does: the object before it, the text, the answer, and the object after it.
    ghost gives: { Self → List ℕ → BareAnswer → Self → Type 0 };

    /// What a call that finds no memory does: the object before it, the text, and the object after it.
    ghost fails: { Self → List ℕ → Self → Type 0 };

    /// The answer for a text, from the folder of the package.
    fn bare(&mut self, alloc: Global, text: &str) -> Result<BareAnswer, Memory>
        ensures answers { IfOk result (λ answer. gives self.old text.now answer self.new) }
        ensures memory { OnErr result (fails self.old text.now self.new) };
}
