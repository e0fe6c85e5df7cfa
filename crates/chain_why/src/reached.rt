use module_graph::Slot;
use std::hash::{Hash, Hasher};

/// A module that was reached: by the request with this number of the asker at this place, 0 being the page's. It is
/// told apart by its slot alone.
#[derive(Clone, Copy, Debug)]
pub(crate) struct Reached {
    pub slot: Slot,
    pub from: usize,
    pub number: usize,
}

impl PartialEq for Reached {
    ghost use Rattle.chain_why.specs.Reaching.{is_same};
    ghost use Rattle.std.proofs.Common.{rules};
    ghost use Rattle.std.specs.Cmp.Rules.{comparing};

    ghost eq = { is_same };

    ghost laws = { Prim.search (comparing, rules) };

    fn eq(&self, other: &Reached) -> bool {
        self.slot.index == other.slot.index && self.slot.generation == other.slot.generation
    }
}

impl Eq for Reached {
    ghost use Rattle.std.proofs.Common.{rules};
    ghost use Rattle.std.specs.Cmp.Rules.{comparing};

    ghost laws = { Prim.search (comparing, rules) };
}

impl Hash for Reached {
    ghost use Rattle.std.proofs.Common.{rules};
    ghost use Rattle.std.specs.Cmp.Rules.{hashing};
    ghost use Rattle.std.specs.Hash as fed;
    ghost use Rattle.std.specs.Prelude.{◌++◌};

    ghost hash_input = { λ r. fed.u32 r.slot.index ++ fed.u32 r.slot.generation };

    ghost respects_eq = { Prim.search (hashing, rules) };

    fn hash<H: Hasher>(&self, state: &mut H) {
        self.slot.index.hash(state);
        self.slot.generation.hash(state);
    }
}
