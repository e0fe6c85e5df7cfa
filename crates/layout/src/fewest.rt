ghost use Rattle.std.specs.Prelude.{◌≡◌, IfOk, IfErr, OnOk, Contains, List, ℕ};
ghost use Rattle.fewest_spec.specs.Wishes.{HasManyChoices, HasTooManyChoices};
ghost use Rattle.layout.specs.declared.fault.LayoutFault.TheVariants.{TooManyChoices};
ghost use Rattle.layout.specs.Groups.{IsAsking, IsGroupLaid};
ghost use Rattle.layout.specs.Laid.{laid_map};
ghost use Rattle.layout.specs.Layouts.{FewestLists, HasFewest};
ghost use Rattle.place_nodes.specs.Rows.{IsTable};

use crate::fault::LayoutFault;
use crate::group::{is_only_target, next_group};
use crate::laid::Laid;
use crate::one::lay_one;
use crate::some::lay_some;
use need_table::Needs;
use place_nodes::{Row, rows_in_order};
use scope_builder::Layout;
use std::alloc::Global;

/// The layout with the fewest mappings that serves the needs, of several the first in the order of places and targets.
///
/// The work is a sort of the needs; a specifier with one target takes a pass over its needs, any other one over its
/// places times its targets.
pub fn layout(alloc: Global, needs: &Needs) -> Result<Layout, LayoutFault>
    ensures fewest { IfOk result (FewestLists needs.now) }
    ensures few { IfOk result (λ layout. HasTooManyChoices needs.now → ⊥) }
    ensures many { IfErr result (λ fault. fault ≡ TooManyChoices → HasTooManyChoices needs.now) }
{
    let _apart = needs.len();
    let rows = rows_in_order(alloc, needs)?;
    let laid = lay_rows(alloc, rows.as_slice())?;
    Ok(laid.into_layout(alloc)?)
}

fn lay_rows(alloc: Global, rows: &[Row]) -> Result<Laid, LayoutFault>
    requires { IsTable rows.now }
    ensures laid { IfOk result (λ laid. HasFewest rows.now (laid_map laid)) }
    ensures many { IfErr result (λ fault. fault ≡ TooManyChoices → HasTooManyChoices rows.now) }
{
    let mut laid = Laid::new(alloc);
    let mut left = rows;
    while let Some((group, more)) = next_group(left) {
        lay_group(alloc, &mut laid, group)?;
        left = more;
    }
    Ok(laid)
}

fn lay_group(alloc: Global, laid: &mut Laid, group: &[Row]) -> Result<(), LayoutFault>
    requires { (asked : List ℕ) × IsAsking asked group.now }
    ensures laid { OnOk result ((asked : List ℕ) → IsAsking asked group.now
        → IsGroupLaid asked group.now (laid_map laid.old) (laid_map laid.new)) }
    ensures many { IfErr result (λ fault. fault ≡ TooManyChoices
        → (asked : List ℕ) → IsAsking asked group.now → HasManyChoices group.now asked) }
{
    let Some((first, _)) = group.split_first() else {
        return Ok(());
    };
    let need = first.need();
    if is_only_target(group, &need.target) {
        return lay_one(alloc, laid, &need.asked, &need.target, group);
    }
    lay_some(alloc, laid, &need.asked, group)
}
