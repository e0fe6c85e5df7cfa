ghost use Rattle.std.specs.Prelude.{◌≡◌, ◌≤◌, ◌^◌, List, ℕ, IfSome, MatchOption};
ghost use Rattle.import_map_spec.specs.ParsedMap.{ParsedMap};
ghost use Rattle.layout_spec.specs.Counting.{mapping_count};
ghost use Rattle.scope_builder.specs.Lists.{Lists};
ghost use Rattle.layout.specs.Counting.{listed_count};

use scope_builder::Layout;

/// How many mappings a layout has; None where that is more than a count holds.
pub fn mappings(layout: &Layout) -> Option<usize>
    ensures all { MatchOption result (2 ^ 64 ≤ listed_count layout.now) (λ count. count ≡ listed_count layout.now) }
    ensures of_map { IfSome result (λ count. (integrity : List (List ℕ × List ℕ)) (m : ParsedMap)
        → Lists layout.now integrity m → count ≡ mapping_count m) }
{
    let mut count = layout.imports.len();
    for scope in layout.scopes.as_slice() {
        count = count.checked_add(scope.1.len())?;
    }
    Some(count)
}
