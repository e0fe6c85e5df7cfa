ghost use Rattle.std.specs.Prelude.{◌≡◌, IfOk, IfSome, OnOk};
ghost use Rattle.layout.specs.Choices as definition;
ghost use Rattle.layout.specs.Fits.{own_row, best_row, fitted, fitted_from, ArePaid};

use shared_types::Memory;
use std::alloc::{AllocError, Global};
use std::marker::Model;

/// The penalties of the targets at a place: 0 for each that fits and costs least, 1 for any other.
///
/// Where one target fits alone, nothing but its number is kept.
#[derive(Drop)]
pub(crate) struct Penalties {
    width: usize,
    own: Option<usize>,
    best: Vec<bool>,
}

impl Model for Penalties {
    ghost use Rattle.std.specs.Prelude.{List, ℕ};
    ghost use Rattle.layout.specs.Fits.{row_by};

    ghost Value = { List ℕ };

    ghost view = { λ p. row_by p.own p.width p.best.items };
}

impl Penalties {
    /// The target with this number, of so many, fits alone.
    pub(crate) fn alone(alloc: Global, width: usize, own: usize) -> Penalties
        ensures { result ≡ own_row width own }
    {
        Penalties {
            width,
            own: Some(own),
            best: Vec::new(alloc),
        }
    }

    /// These are best.
    pub(crate) fn of(best: Vec<bool>) -> Penalties
        ensures { result ≡ best_row best.items }
    {
        Penalties {
            width: best.len(),
            own: None,
            best,
        }
    }

    /// The number of the target to hold, where what comes from above isn't best.
    pub(crate) fn choice_at(&self, from: usize) -> Option<usize>
        ensures { result ≡ definition.choice_at self.now from }
    {
        match self.own {
            Some(own) => other_than(self.width, own, from),
            None => other_than_best(self.best.as_slice(), from),
        }
    }

    /// The number of the target that fits alone, of so many.
    pub(crate) fn alone_of(&self, width: usize) -> Option<usize>
        ensures { IfSome result (λ own. self.now ≡ own_row width own) }
    {
        if self.width == width { self.own } else { None }
    }

    /// Each target that is best fits one more.
    pub(crate) fn pay(&self, fits: Vec<usize>) -> Result<Vec<usize>, Memory>
        ensures { IfOk result (λ more. ArePaid fits.items self.now more.items) }
    {
        let mut more = fits;
        match self.own {
            Some(own) => {
                more.truncate(self.width);
                fit(&mut more, own)?;
            }
            None => {
                more.truncate(self.best.len());
                fit_each(&mut more, self.best.as_slice())?;
            }
        }
        Ok(more)
    }
}

fn other_than(width: usize, own: usize, from: usize) -> Option<usize>
    ensures { result ≡ definition.choice_at (own_row width own) from }
{
    if from >= width {
        return None;
    }
    if from == own {
        return None;
    }
    Some(own.min(width))
}

fn other_than_best(best: &[bool], from: usize) -> Option<usize>
    ensures { result ≡ definition.choice_at (best_row best.now) from }
{
    match best.get(from) {
        None => None,
        Some(true) => None,
        Some(false) => Some(first_best(best)),
    }
}

fn first_best(best: &[bool]) -> usize
    ensures { result ≡ definition.first_free (best_row best.now) }
{
    let mut number = 0;
    let mut left = best;
    while let Some((is_best, more)) = left.split_first() {
        if *is_best {
            return number;
        }
        number += 1;
        left = more;
    }
    number
}

fn fit(fits: &mut Vec<usize>, number: usize) -> Result<(), Memory>
    ensures { OnOk result (fits.new.items ≡ fitted number fits.old.items) }
{
    let Some(count) = fits.get(number) else {
        return Ok(());
    };
    let Some(more) = count.checked_add(1) else {
        return Err(AllocError);
    };
    fits[number] = more;
    Ok(())
}

fn fit_each(fits: &mut Vec<usize>, best: &[bool]) -> Result<(), Memory>
    ensures { OnOk result (fits.new.items ≡ fitted_from 0 best.now fits.old.items) }
{
    let mut number = 0;
    let mut left = best;
    while let Some((is_best, more)) = left.split_first() {
        if *is_best {
            fit(fits, number)?;
        }
        number += 1;
        left = more;
    }
    Ok(())
}
