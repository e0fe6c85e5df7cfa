use shared_types::Text;
use std::hash::{Hash, Hasher};
use std::marker::Model;
use tree_model::Path;

/// A request: the path of its parent, and its specifier.
#[derive(Drop)]
pub struct RequestKey {
    parent: Path,
    specifier: Text,
}

impl Model for RequestKey {
    ghost use Rattle.kept_answers.specs.Entries.{Request};

    ghost Value = { Request };

    ghost view = { λ k. record { parent = k.parent; specifier = k.specifier } };
}

impl RequestKey {
    ghost use Rattle.std.specs.Prelude.{◌≡◌};

    /// The request for a specifier in the file at a path.
    pub fn new(parent: Path, specifier: Text) -> RequestKey
        ensures { result ≡ record { parent = parent; specifier = specifier } }
    {
        RequestKey { parent, specifier }
    }
}

impl PartialEq for RequestKey {
    ghost use Rattle.std.specs.Prelude.{bytes_eq};
    ghost use Rattle.std.specs.Ordering.{on, eq_of_both};
    ghost use Rattle.std.proofs.Common.{rules};
    ghost use Rattle.std.specs.Cmp.Rules.{comparing};

    ghost eq = { eq_of_both (on (λ k. k.parent) bytes_eq) (on (λ k. k.specifier) bytes_eq) };

    ghost laws = { Prim.search (comparing, rules) };

    fn eq(&self, other: &RequestKey) -> bool {
        self.parent == other.parent && self.specifier == other.specifier
    }
}

impl Eq for RequestKey {
    ghost use Rattle.std.proofs.Common.{rules};
    ghost use Rattle.std.specs.Cmp.Rules.{comparing};

    ghost laws = { Prim.search (comparing, rules) };
}

impl Hash for RequestKey {
    ghost use Rattle.std.proofs.Common.{rules};
    ghost use Rattle.std.specs.Cmp.Rules.{hashing};
    ghost use Rattle.std.specs.Hash as fed;
    ghost use Rattle.std.specs.Prelude.{◌++◌};

    ghost hash_input = { λ k. fed.str k.parent ++ fed.str k.specifier };

    ghost respects_eq = { Prim.search (hashing, rules) };

    fn hash<H: Hasher>(&self, state: &mut H) {
        self.parent.hash(state);
        self.specifier.hash(state);
    }
}
