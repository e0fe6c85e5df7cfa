ghost use Rattle.std.specs.Prelude.{◌≡◌, ◌≤◌, ◌<◌, ◌^◌, ◌-◌, ◌+◌, length, MatchOption, IsTrue};
ghost use Rattle.std.specs.List.{sum_by};
ghost use Rattle.tree_spec.specs.Limits.{limit_number};
ghost use Rattle.tree_spec.specs.declared.LimitName.TheVariants.{Map};
ghost use Rattle.map_print.specs.LeastSizes as definition;

use scope_builder::{Layout, Mappings};
use shared_types::Text;
use tree_spec::MOST_MAP_BYTES;

/// Whether the text of a map has too many bytes whatever is escaped in it. `folder` is the size of the map base's folder.
/// So a text that is far too large, as of one long specifier in many scopes, isn't built.
pub(crate) fn is_far_too_large(layout: &Layout, integrity: &Mappings, folder: usize) -> bool
    ensures { IsTrue result → limit_number Map < definition.map_least folder layout.now integrity.now }
{
    match map_least(layout, integrity, folder) {
        None => true,
        Some(size) => size > MOST_MAP_BYTES,
    }
}

fn map_least(layout: &Layout, integrity: &Mappings, folder: usize) -> Option<usize>
    ensures { MatchOption result (2 ^ 64 ≤ definition.map_least folder layout.now integrity.now)
        (λ size. size ≡ definition.map_least folder layout.now integrity.now) }
{
    let imports = pairs_least(layout.imports.as_slice(), folder)?;
    let scopes = scopes_least(layout.scopes.as_slice(), folder)?;
    let integrity = pairs_least(integrity.as_slice(), folder)?;
    imports.checked_add(scopes)?.checked_add(integrity)
}

fn scopes_least(scopes: &[(Text, Mappings)], folder: usize) -> Option<usize>
    ensures { MatchOption result (2 ^ 64 ≤ sum_by (definition.scope_least folder) scopes.now)
        (λ size. size ≡ sum_by (definition.scope_least folder) scopes.now) }
{
    let mut size: usize = 0;
    for scope in scopes {
        size = size.checked_add(scope_least(scope, folder)?)?;
    }
    Some(size)
}

fn scope_least(scope: &(Text, Mappings), folder: usize) -> Option<usize>
    ensures { MatchOption result (2 ^ 64 ≤ definition.scope_least folder scope.now)
        (λ size. size ≡ definition.scope_least folder scope.now) }
{
    let key = scope.0.as_str().len().saturating_sub(folder);
    key.checked_add(pairs_least(scope.1.as_slice(), folder)?)
}

fn pairs_least(pairs: &[(Text, Text)], folder: usize) -> Option<usize>
    ensures { MatchOption result (2 ^ 64 ≤ sum_by (definition.pair_least folder) pairs.now)
        (λ size. size ≡ sum_by (definition.pair_least folder) pairs.now) }
{
    let mut size: usize = 0;
    for pair in pairs {
        size = size.checked_add(pair_least(pair, folder)?)?;
    }
    Some(size)
}

fn pair_least(pair: &(Text, Text), folder: usize) -> Option<usize>
    ensures { MatchOption result (2 ^ 64 ≤ definition.pair_least folder pair.now)
        (λ size. size ≡ definition.pair_least folder pair.now) }
{
    let value = pair.1.as_str().len().saturating_sub(folder);
    pair.0.as_str().len().checked_add(value)
}
