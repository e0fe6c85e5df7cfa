ghost use Rattle.std.specs.Prelude.{◌≡◌};

use layout_spec::Need;
use std::hash::{Hash, Hasher};
use std::marker::Model;

/// A need as a row of the table: told apart by its referrer and its specifier alone.
#[derive(Drop)]
pub struct Asking {
    need: Need,
}

impl Model for Asking {
    ghost use Rattle.layout_spec.specs.declared.Need.{Need};

    ghost Value = { Need };

    ghost view = { λ a. a.need };
}

impl Asking {
    pub fn new(need: Need) -> Asking
        ensures { result ≡ need }
    {
        Asking { need }
    }

    pub fn need(&self) -> &Need
        ensures { result.now ≡ self.now }
    {
        &self.need
    }
}

impl PartialEq for Asking {
    ghost use Rattle.need_table.specs.Rows.{asks_alike};
    ghost use Rattle.std.proofs.Common.{rules};
    ghost use Rattle.std.specs.Cmp.Rules.{comparing};

    ghost eq = { asks_alike };

    ghost laws = { Prim.search (comparing, rules) };

    fn eq(&self, other: &Asking) -> bool {
        self.need.referrer == other.need.referrer && self.need.asked == other.need.asked
    }
}

impl Eq for Asking {
    ghost use Rattle.std.proofs.Common.{rules};
    ghost use Rattle.std.specs.Cmp.Rules.{comparing};

    ghost laws = { Prim.search (comparing, rules) };
}

impl Hash for Asking {
    ghost use Rattle.std.proofs.Common.{rules};
    ghost use Rattle.std.specs.Cmp.Rules.{hashing};
    ghost use Rattle.std.specs.Hash as fed;
    ghost use Rattle.std.specs.Prelude.{◌++◌};

    ghost hash_input = { λ n. fed.str n.referrer ++ fed.str n.asked };

    ghost respects_eq = { Prim.search (hashing, rules) };

    fn hash<H: Hasher>(&self, state: &mut H) {
        self.need.referrer.hash(state);
        self.need.asked.hash(state);
    }
}
