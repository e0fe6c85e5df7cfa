ghost use Rattle.std.specs.Prelude.{◌≡◌, [], IfOk, IsTrue, MatchOption, Contains};
ghost use Rattle.layout_spec.specs.declared.Need.{Need};
ghost use Rattle.layout.specs.Groups.{IsFront, IsGroup, targets_onto};

use place_nodes::Row;
use shared_types::{Memory, Text};
use std::alloc::Global;
use std::collections::BTreeSet;

/// The needs in front that ask for what the first one asks for, and the others.
pub(crate) fn next_group(rows: &[Row]) -> Option<(&[Row], &[Row])>
    ensures { MatchOption result (rows.now ≡ []) (λ parts. IsGroup rows.now parts.0.now parts.1.now) }
{
    let Some((first, _)) = rows.split_first() else {
        return None;
    };
    let size = front_size(rows, &first.need().asked);
    Some(rows.split_at(size))
}

fn front_size(rows: &[Row], asked: &Text) -> usize
    ensures { IsFront asked.now rows.now result }
{
    let mut size = 0;
    let mut left = rows;
    while let Some((row, more)) = left.split_first() {
        if row.need().asked != *asked {
            return size;
        }
        size += 1;
        left = more;
    }
    size
}

/// Whether all needs have this target.
pub(crate) fn is_only_target(rows: &[Row], target: &Text) -> bool
    ensures { IsTrue result → (need : Need) → Contains rows.now need → need.target ≡ target.now }
{
    let mut left = rows;
    while let Some((row, more)) = left.split_first() {
        if row.need().target != *target {
            return false;
        }
        left = more;
    }
    true
}

/// The targets of needs.
pub(crate) fn targets_of(alloc: Global, rows: &[Row]) -> Result<BTreeSet<Text>, Memory>
    ensures { IfOk result (λ targets. targets.keys ≡ targets_onto [] rows.now) }
{
    let mut targets = BTreeSet::new(alloc);
    let mut left = rows;
    while let Some((row, more)) = left.split_first() {
        let target = row.need().target.copy(alloc)?;
        targets.insert(target)?;
        left = more;
    }
    Ok(targets)
}
