ghost use Rattle.std.specs.Prelude.{◌≡◌, ◌==◌, [], ◌∷◌, ◌++◌, if◌then◌else◌, is_ok, length, option_map, slice_get};

use module_graph::Slot;
use shared_types::Memory;
use std::alloc::Global;
use std::marker::Model;

/// A chain of requests: of each its number among those of its asker, and the slot of the module that it leads to.
#[derive(Drop)]
pub struct Chain {
    steps: Vec<(usize, Slot)>,
}

impl Model for Chain {
    ghost use Rattle.std.specs.Prelude.{List, ℕ};
    ghost use Rattle.slot_arena.specs.declared.slot.Slot.{Slot};

    ghost Value = { List (ℕ × Slot) };

    ghost view = { λ c. c.steps.items };
}

impl Chain {
    /// The chain without a request.
    pub fn new(alloc: Global) -> Chain
        ensures { result ≡ [] }
    {
        Chain {
            steps: Vec::new(alloc),
        }
    }

    /// The chain of these requests, which are moved.
    pub(crate) fn from_vec(steps: Vec<(usize, Slot)>) -> Chain
        ensures { result ≡ steps.items }
    {
        Chain { steps }
    }

    /// Puts a request at the end. Without memory the chain stays as it was.
    pub fn push(&mut self, number: usize, slot: Slot) -> Result<(), Memory>
        ensures { self.new ≡ (if is_ok result then self.old ++ (number, slot) ∷ [] else self.old) }
    {
        self.steps.push((number, slot))?;
        Ok(())
    }

    /// The number of requests.
    pub fn len(&self) -> usize
        ensures { result ≡ length self.now }
    {
        self.steps.as_slice().len()
    }

    /// Whether there is no request.
    pub fn is_empty(&self) -> bool
        ensures { result ≡ (length self.now == 0) }
    {
        self.steps.as_slice().is_empty()
    }

    /// The request at a place of the chain, counted from 0.
    pub fn at(&self, index: usize) -> Option<(&usize, &Slot)>
        ensures { option_map (λ step. (step.0.now, step.1.now)) result ≡ slice_get self.now index }
    {
        match self.steps.as_slice().get(index) {
            Some((number, slot)) => Some((number, slot)),
            None => None,
        }
    }
}
