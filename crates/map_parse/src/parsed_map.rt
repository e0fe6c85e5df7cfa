ghost use Rattle.std.specs.Prelude.{◌≡◌, ◌<◌, ◌≤◌, ℕ, length, take, None, option_copied};
ghost use Rattle.std.specs.FinMap.{get};

use crate::{Addresses, TextMap};
use shared_types::Text;
use std::marker::Model;

/// An import map.
#[derive(Drop)]
pub struct ParsedMap {
    pub(crate) imports: Addresses,
    pub(crate) scopes: TextMap<Addresses>,
    pub(crate) integrity: TextMap<Text>,
}

impl Model for ParsedMap {
    ghost use Rattle.import_map_spec.specs.ParsedMap as definition;
    ghost use Rattle.import_map_spec.proofs.Codes.{coded_map};

    ghost Value = { definition.ParsedMap };

    ghost coded = { coded_map };

    ghost view = { λ m. record { imports = m.imports; scopes = m.scopes; integrity = m.integrity } };
}

impl ParsedMap {
    /// The addresses outside of scopes.
    pub fn imports(&self) -> &Addresses
        ensures { result.now ≡ self.now.imports }
    {
        &self.imports
    }

    /// The addresses of the scope with this URL.
    pub fn scope(&self, key: &str) -> Option<&Addresses>
        ensures { option_copied result ≡ get self.now.scopes key.now }
    {
        self.scopes.get(key)
    }

    /// The same with the place of the URL among those of all scopes. Where that is the place that is given, it is
    /// found at once.
    pub fn scope_near(&self, key: &str, near: usize) -> (Option<&Addresses>, usize)
        ensures { option_copied result.0 ≡ get self.now.scopes key.now }
    {
        self.scopes.get_near(key, near)
    }

    /// How far the URLs of scopes go with a text: of its fronts that are longer, none is a scope's.
    pub fn scope_reach(&self, text: &str) -> usize
        ensures within { result ≤ length text.now }
        ensures none { (n : ℕ) → result < n → n ≤ length text.now → get self.now.scopes (take n text.now) ≡ None }
    {
        self.scopes.reach(text)
    }

    /// The integrity of the module with this URL.
    pub fn integrity(&self, url: &str) -> Option<&Text>
        ensures { option_copied result ≡ get self.now.integrity url.now }
    {
        self.integrity.get(url)
    }
}
