//! Of what a map consists: the places of a referrer, and mappings and scopes in the order of their keys.
#![tactic(auto)]

ghost use Rattle.scope_builder.specs.SomeMap.{SomeMap};

mod folders;
mod keyed;

pub use folders::{Places, is_folder, places};
pub use keyed::{Keyed, Layout, Mappings, Scopes};

/// Lists in the order of their keys, with scopes in the order of theirs, are the entries of a map; so what is said of
/// each map whose entries they are is said of one.
pub fn some_map()
    ensures { SomeMap }
{}
