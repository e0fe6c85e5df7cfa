ghost use Rattle.std.specs.Prelude.{◌≡◌, ◌≤◌, ◌+◌, IfOk, IfErr, OnOk, IsTrue, Contains, length};
ghost use Rattle.fewest_spec.specs.Wishes.{HasManyChoices};
ghost use Rattle.layout_spec.specs.declared.Need.{Need};
ghost use Rattle.tree_spec.specs.Limits.{limit_number};
ghost use Rattle.tree_spec.specs.declared.LimitName.TheVariants.{Choices};
ghost use Rattle.layout.specs.declared.fault.LayoutFault.TheVariants.{TooManyChoices};
ghost use Rattle.layout.specs.Groups.{IsAsking, IsGroupLaid, IsTopLaid, IsJudged, places_at_most};
ghost use Rattle.layout.specs.Laid.{laid_map};

use crate::fault::LayoutFault;
use crate::laid::Laid;
use place_nodes::{Row, nodes_of};
use shared_types::{Memory, Text};
use std::alloc::Global;
use tree_spec::MOST_CHOICES;

/// Lays what is chosen for a specifier with one target: the top level holds it, where it isn't the specifier.
pub(crate) fn lay_one(
    alloc: Global,
    laid: &mut Laid,
    asked: &Text,
    target: &Text,
    group: &[Row],
) -> Result<(), LayoutFault>
    requires asking { IsAsking asked.now group.now }
    requires one { (need : Need) → Contains group.now need → need.target ≡ target.now }
    ensures laid { OnOk result (IsGroupLaid asked.now group.now (laid_map laid.old) (laid_map laid.new)) }
    ensures many { IfErr result (λ fault. fault ≡ TooManyChoices → HasManyChoices group.now asked.now) }
{
    if !has_few_places(alloc, asked, target, group)? {
        return Err(LayoutFault::TooManyChoices);
    }
    lay_at_top(alloc, laid, asked, target)?;
    Ok(())
}

fn lay_at_top(alloc: Global, laid: &mut Laid, asked: &Text, target: &Text) -> Result<(), Memory>
    ensures { OnOk result (IsTopLaid asked.now target.now (laid_map laid.old) (laid_map laid.new)) }
{
    if *asked == *target {
        return Ok(());
    }
    laid.put(alloc, "", asked, target)
}

// Whether the places, of which a text has no more than bytes and one, are as many as are looked at. They are found only
// where the texts don't tell it.
fn has_few_places(alloc: Global, asked: &Text, target: &Text, group: &[Row]) -> Result<bool, Memory>
    requires asking { IsAsking asked.now group.now }
    requires one { (need : Need) → Contains group.now need → need.target ≡ target.now }
    ensures { IfOk result (IsJudged asked.now group.now) }
{
    if is_short(group) {
        return Ok(true);
    }
    let mut targets = Vec::new(alloc);
    targets.push(target.copy(alloc)?)?;
    match nodes_of(alloc, group, targets.as_slice(), 1)? {
        None => Ok(false),
        Some(_) => Ok(true),
    }
}

fn is_short(rows: &[Row]) -> bool
    ensures { IsTrue result → places_at_most rows.now ≤ limit_number Choices }
{
    let mut room = MOST_CHOICES;
    let mut left = rows;
    while let Some((row, more)) = left.split_first() {
        let size = row.need().referrer.len();
        if size >= room {
            return false;
        }
        room -= size + 1;
        left = more;
    }
    true
}
