//! Counts of faults.
ghost use Rattle.std.specs.Prelude.{◌≡◌, ◌≤◌, ℕ};
ghost use Rattle.tree_spec.specs.Counts.{Rose, following};

/// One more fault than before, up to the last number of the count.
pub fn one_more(faults: u64) -> u64
    ensures next { result ≡ following faults }
    ensures risen { Rose faults result }
    ensures later { faults ≤ result }
{
    faults.saturating_add(1)
}
