ghost use Rattle.std.specs.Prelude.{◌≡◌, ◌≢◌, ◌==◌, ◌++◌, ◌∷◌, List, [], ℕ, Bool, length, true, false, slice_get};
ghost use Rattle.std.specs.Prelude.{option_copied, Some, OnOk, OnErr, IfErr, IfOk, MatchOption};
ghost use Rattle.std.specs.List.{list_any, IsDistinct};
ghost use Rattle.layout_spec.specs.Needs.{NoClash};
ghost use Rattle.layout_spec.specs.declared.Need.{Need};
ghost use Rattle.need_table.specs.Rows.{asks_alike, Adds};

use crate::asking::Asking;
use indexmap::IndexSet;
use layout_spec::Need;
use shared_types::Memory;
use std::alloc::Global;
use std::marker::Model;

/// The needs in first-seen order; no two of them agree in referrer and specifier.
#[derive(Drop)]
pub struct Needs {
    rows: IndexSet<Asking>,
}

/// What adding a need did.
#[derive(Clone, Copy, Debug, PartialEq, Eq)]
pub enum Added {
    /// The need is the last one now.
    New,
    /// The need was there.
    Known,
}

/// Why a need isn't added.
#[derive(Clone, Copy, Debug, PartialEq, Eq)]
pub enum NeedFault {
    /// The need at this place has its referrer and specifier, and another target.
    Clash { first: usize },
    /// Want of memory.
    Memory,
}

impl Model for Needs {
    ghost use Rattle.std.specs.Prelude.{List};
    ghost use Rattle.layout_spec.specs.declared.Need.{Need};

    ghost Value = { List Need };

    ghost view = { λ n. n.rows.keys };
}

impl Needs {
    /// No needs.
    pub fn new(alloc: Global) -> Needs
        ensures { result ≡ [] }
    {
        Needs {
            rows: IndexSet::new(alloc),
        }
    }

    /// The number of needs.
    pub fn len(&self) -> usize
        ensures len { result ≡ length self.now }
        ensures unique { IsDistinct asks_alike self.now }
        ensures no_clash { NoClash self.now }
    {
        self.rows.len()
    }

    /// Whether there is no need.
    pub fn is_empty(&self) -> bool
        ensures { result ≡ (length self.now == 0) }
    {
        self.rows.len() == 0
    }

    /// The need with this number, counted from 0.
    pub fn at(&self, index: usize) -> Option<&Need>
        ensures { option_copied result ≡ slice_get self.now index }
    {
        match self.rows.get_index(index) {
            None => None,
            Some(row) => Some(row.need()),
        }
    }

    /// Adds a need that isn't there yet.
    pub fn add(&mut self, need: Need) -> Result<Added, NeedFault>
        ensures { Adds self.old need self.new result }
    {
        let _apart = self.rows.len();
        let row = Asking::new(need);
        match place_of(&self.rows, &row) {
            Some((first, other)) => judge(first, other, row.need()),
            None => {
                put_row(&mut self.rows, row)?;
                Ok(Added::New)
            }
        }
    }
}

impl From<Memory> for NeedFault {
    ghost use Rattle.std.specs.Prelude.{◌≡◌};
    ghost use Rattle.need_table.specs.declared.needs.NeedFault.TheVariants.{Memory};

    ghost from_gives = { λ _ fault. fault ≡ Memory };

    fn from(_: Memory) -> Self {
        NeedFault::Memory
    }
}

// A need that asks as another one at this place does.
fn judge(first: usize, other: &Need, need: &Need) -> Result<Added, NeedFault>
    ensures known { IfOk result (λ added. (added ≡ Added.Known) × (other.now.target ≡ need.now.target)) }
    ensures clash { IfErr result (λ fault. (fault ≡ NeedFault.Clash first) × (other.now.target ≢ need.now.target)) }
{
    if other.target == need.target {
        return Ok(Added::Known);
    }
    Err(NeedFault::Clash { first })
}

fn put_row(rows: &mut IndexSet<Asking>, row: Asking) -> Result<(), Memory>
    requires { list_any (asks_alike row) rows.old.keys ≡ false }
    ensures put { OnOk result (rows.new.keys ≡ rows.old.keys ++ row ∷ []) }
    ensures same { OnErr result (rows.new.keys ≡ rows.old.keys) }
{
    rows.insert(row)?;
    Ok(())
}

// The need that asks alike, with its place.
#[tactic(auto, using(crate::proofs::Found::find_passes))]
fn place_of<'a>(rows: &'a IndexSet<Asking>, row: &Asking) -> Option<(usize, &'a Need)>
    ensures { MatchOption result (list_any (asks_alike row.now) rows.now.keys ≡ false)
        (λ found. (slice_get rows.now.keys found.0 ≡ Some found.1.now) × (asks_alike row.now found.1.now ≡ true)) }
{
    match rows.get_full(row) {
        None => None,
        Some((first, other)) => Some((first, other.need())),
    }
}
