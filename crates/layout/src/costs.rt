ghost use Rattle.std.specs.Prelude.{◌≡◌, ◌⊎◌, ℕ, IfOk, IfSome, IsTrue, OnOk, Some, None, length, replicate};
ghost use Rattle.layout.specs.Costs as definition;
ghost use Rattle.layout.specs.Fits.{costs_by, alone_by, all_fits, AtMost, IsAlone, greatest_from, best_at};

use crate::penalty::Penalties;
use shared_types::Memory;
use std::alloc::{AllocError, Global};
use std::marker::Model;
use std::mem;

/// What each target costs a place: the number of the places below it, less the number of those that the target fits.
///
/// No list is made while one target alone fits all of them.
#[derive(Drop)]
pub(crate) struct Costs {
    width: usize,
    total: usize,
    alone: Option<usize>,
    fits: Vec<usize>,
}

impl Model for Costs {
    ghost use Rattle.std.specs.Prelude.{List, ℕ};
    ghost use Rattle.layout.specs.Fits.{costs_by, all_fits, IsKept};

    ghost Value = { List ℕ };

    ghost view = { λ c. costs_by c.total (all_fits c.width c.total c.alone c.fits.items) };

    ghost invariant = { λ c. IsKept c.width c.total (all_fits c.width c.total c.alone c.fits.items) };
}

impl Costs {
    /// No target costs anything.
    #[tactic(auto, using(crate::proofs::Fits::free_is, crate::proofs::Fits::free_kept))]
    pub(crate) fn free(alloc: Global, width: usize) -> Costs
        ensures { result ≡ replicate width 0 }
    {
        Costs {
            width,
            total: 0,
            alone: None,
            fits: Vec::new(alloc),
        }
    }

    /// A place below pays.
    pub(crate) fn charge(&mut self, alloc: Global, row: &Penalties) -> Result<(), Memory>
        ensures { OnOk result (self.new ≡ definition.added self.old row.now) }
    {
        let was = mem::replace(self, Costs::free(alloc, 0));
        *self = was.charged(alloc, row)?;
        Ok(())
    }

    fn charged(self, alloc: Global, row: &Penalties) -> Result<Costs, Memory>
        ensures { IfOk result (λ more. more ≡ definition.added self row.now) }
    {
        let Costs {
            width,
            total,
            alone,
            fits,
        } = self;
        let Some(sum) = total.checked_add(1) else {
            return Err(AllocError);
        };
        if let Some(own) = row.alone_of(width) {
            if stays_alone(fits.as_slice(), total, alone, own) {
                return Ok(Costs {
                    width,
                    total: sum,
                    alone: Some(own),
                    fits,
                });
            }
        }
        let all = opened(alloc, width, total, alone, fits)?;
        let more = row.pay(all)?;
        Ok(Costs {
            width: more.len(),
            total: sum,
            alone: None,
            fits: more,
        })
    }

    /// The penalties of the targets, one of which may be the place's own.
    pub(crate) fn penalties(self, alloc: Global, own: Option<usize>) -> Result<Penalties, Memory>
        ensures { IfOk result (λ row. row ≡ definition.penalties own self) }
    {
        let Costs {
            width,
            total,
            alone,
            fits,
        } = self;
        match own {
            Some(number) => Ok(Penalties::alone(alloc, width, number)),
            None => best(alloc, width, total, alone, fits),
        }
    }
}

// Whether one target alone fits all places below, also where one more comes that it fits.
fn stays_alone(fits: &[usize], total: usize, alone: Option<usize>, own: usize) -> bool
    ensures none { IsTrue result → length fits.now ≡ 0 }
    ensures same { IsTrue result → (total ≡ 0) ⊎ (alone ≡ Some own) }
{
    if !fits.is_empty() {
        return false;
    }
    if total == 0 {
        return true;
    }
    match alone {
        None => false,
        Some(number) => number == own,
    }
}

fn best(
    alloc: Global,
    width: usize,
    total: usize,
    alone: Option<usize>,
    fits: Vec<usize>,
) -> Result<Penalties, Memory>
    ensures { IfOk result (λ row. AtMost total (all_fits width total alone fits.items)
        → row ≡ definition.penalties None (costs_by total (all_fits width total alone fits.items))) }
{
    if let Some(number) = alone_at(width, total, alone, fits.as_slice()) {
        return Ok(Penalties::alone(alloc, width, number));
    }
    let all = opened(alloc, width, total, alone, fits)?;
    let best = best_of(alloc, all.as_slice())?;
    Ok(Penalties::of(best))
}

// The target that alone fits all places below, where there are any.
fn alone_at(width: usize, total: usize, alone: Option<usize>, fits: &[usize]) -> Option<usize>
    ensures { IfSome result (λ number. IsAlone width total alone fits.now number) }
{
    let Some(number) = alone else {
        return None;
    };
    if !fits.is_empty() {
        return None;
    }
    if number >= width || total == 0 {
        return None;
    }
    Some(number)
}

// The list, written out where there is none.
#[tactic(auto, using(crate::proofs::Fits::opened_none, crate::proofs::Fits::opened_some))]
fn opened(
    alloc: Global,
    width: usize,
    total: usize,
    alone: Option<usize>,
    fits: Vec<usize>,
) -> Result<Vec<usize>, Memory>
    ensures { IfOk result (λ all. all.items ≡ all_fits width total alone fits.items) }
{
    if fits.is_empty() {
        return unlisted(alloc, width, total, alone);
    }
    Ok(fits)
}

#[tactic(auto, using(crate::proofs::Fits::none_by))]
fn unlisted(
    alloc: Global,
    width: usize,
    total: usize,
    alone: Option<usize>,
) -> Result<Vec<usize>, Memory>
    ensures { IfOk result (λ all. all.items ≡ alone_by width total alone) }
{
    let mut all = Vec::from_elem(alloc, 0, width)?;
    let Some(number) = alone else {
        return Ok(all);
    };
    if number < width {
        all[number] = total;
    }
    Ok(all)
}

fn best_of(alloc: Global, fits: &[usize]) -> Result<Vec<bool>, Memory>
    ensures { IfOk result (λ best. best.items ≡ best_at (greatest_from 0 fits.now) fits.now) }
{
    let greatest = greatest_of(fits);
    let mut best = Vec::with_capacity(alloc, fits.len())?;
    let mut left = fits;
    while let Some((fit, more)) = left.split_first() {
        best.push(*fit == greatest)?;
        left = more;
    }
    Ok(best)
}

fn greatest_of(fits: &[usize]) -> usize
    ensures { result ≡ greatest_from 0 fits.now }
{
    let mut greatest: usize = 0;
    let mut left = fits;
    while let Some((fit, more)) = left.split_first() {
        greatest = greatest.max(*fit);
        left = more;
    }
    greatest
}
