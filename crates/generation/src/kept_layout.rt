ghost use Rattle.std.specs.Prelude.{◌≡◌, Err, IfOk, IsTrue, Some, length, slice_get};
ghost use Rattle.fewest_spec.specs.Wishes.{HasTooManyChoices};
ghost use Rattle.layout.specs.Layouts.{FewestLists};

use layout::{LayoutFault, layout};
use need_table::{Need, Needs};
use scope_builder::Layout;
use shared_types::Memory;
use std::alloc::Global;
use std::marker::Model;

/// A layout, with the needs that it serves.
#[derive(Drop)]
pub(crate) struct KeptLayout {
    needs: Vec<Need>,
    layout: Layout,
}

impl Model for KeptLayout {
    ghost use Rattle.generation.specs.Keeping.{LaidNeeds, IsLaid};

    ghost Value = { LaidNeeds };

    ghost view = { λ k. record { needs = k.needs.items; layout = k.layout } };

    ghost invariant = { λ k. IsLaid (record { needs = k.needs.items; layout = k.layout }) };
}

impl KeptLayout {
    /// The layout of needs; the kept one, where it serves just these.
    pub(crate) fn again(
        alloc: Global,
        kept: Option<KeptLayout>,
        needs: &Needs,
    ) -> Result<KeptLayout, LayoutFault>
        ensures serves { IfOk result (λ laid. laid.needs ≡ needs.now) }
        ensures many { result ≡ Err LayoutFault.TooManyChoices → HasTooManyChoices needs.now }
    {
        match kept {
            None => KeptLayout::of(alloc, needs),
            Some(laid) => {
                if laid.serves(needs) {
                    Ok(laid)
                } else {
                    KeptLayout::of(alloc, needs)
                }
            }
        }
    }

    // The layout of needs.
    fn of(alloc: Global, needs: &Needs) -> Result<KeptLayout, LayoutFault>
        ensures serves { IfOk result (λ laid. laid.needs ≡ needs.now) }
        ensures many { result ≡ Err LayoutFault.TooManyChoices → HasTooManyChoices needs.now }
    {
        let layout = layout(alloc, needs)?;
        let needs = copied(alloc, needs)?;
        Ok(KeptLayout { needs, layout })
    }

    // Whether these are its needs.
    fn serves(&self, needs: &Needs) -> bool
        ensures { IsTrue result → self.now.needs ≡ needs.now }
    {
        self.needs.len() == needs.len() && are_in(self.needs.as_slice(), needs)
    }

    /// The lists of the layout.
    pub(crate) fn layout(&self) -> &Layout
        ensures fewest { FewestLists self.now.needs result.now }
        ensures few { HasTooManyChoices self.now.needs → ⊥ }
    {
        &self.layout
    }
}

fn copied(alloc: Global, needs: &Needs) -> Result<Vec<Need>, Memory>
    ensures { IfOk result (λ copies. copies.items ≡ needs.now) }
{
    let mut copies = Vec::with_capacity(alloc, needs.len())?;
    for place in 0..needs.len() {
        let Some(need) = needs.at(place) else {
            break;
        };
        copies.push(copy_of(alloc, need)?)?;
    }
    Ok(copies)
}

fn copy_of(alloc: Global, need: &Need) -> Result<Need, Memory>
    ensures { IfOk result (λ copy. copy ≡ need.now) }
{
    Ok(Need {
        referrer: need.referrer.copy(alloc)?,
        asked: need.asked.copy(alloc)?,
        target: need.target.copy(alloc)?,
    })
}

// Whether each need stands at its place in a table.
fn are_in(kept: &[Need], needs: &Needs) -> bool
    requires { length kept.now ≡ length needs.now }
    ensures { IsTrue result → kept.now ≡ needs.now }
{
    for place in 0..kept.len() {
        if !stands_at(needs, place, &kept[place]) {
            return false;
        }
    }
    true
}

// Whether a need stands at a place in a table.
fn stands_at(needs: &Needs, place: usize, need: &Need) -> bool
    ensures { IsTrue result → slice_get needs.now place ≡ Some need.now }
{
    match needs.at(place) {
        None => false,
        Some(other) => {
            other.referrer == need.referrer
                && other.asked == need.asked
                && other.target == need.target
        }
    }
}
