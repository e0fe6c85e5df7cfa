ghost use Rattle.std.specs.Prelude.{◌≡◌, ◌↔◌, ◌++◌, ◌∷◌, [], Contains, IfOk, OnOk, take, if◌then◌else◌, is_ok};
ghost use Rattle.layout_spec.specs.Needs.{NoClash};
ghost use Rattle.layout_spec.specs.declared.Need.{Need};
ghost use Rattle.place_nodes.specs.Rows.{InOrder};

use layout_spec::Need;
use need_table::Needs;
use shared_types::Memory;
use std::alloc::Global;
use std::cmp::Ordering;
use std::marker::Model;

/// A need among those that are laid: ordered by what is asked for, and then by its referrer.
#[derive(Drop)]
pub struct Row {
    need: Need,
}

impl Model for Row {
    ghost use Rattle.layout_spec.specs.declared.Need.{Need};

    ghost Value = { Need };

    ghost view = { λ r. r.need };
}

impl Row {
    fn copy_of(alloc: Global, need: &Need) -> Result<Row, Memory>
        ensures { IfOk result (λ row. row ≡ need.now) }
    {
        let need = Need {
            referrer: need.referrer.copy(alloc)?,
            asked: need.asked.copy(alloc)?,
            target: need.target.copy(alloc)?,
        };
        Ok(Row { need })
    }

    pub fn need(&self) -> &Need
        ensures { result.now ≡ self.now }
    {
        &self.need
    }
}

impl PartialEq for Row {
    ghost use Rattle.std.specs.Ordering.{on, eq_of_both};
    ghost use Rattle.std.specs.Prelude.{bytes_eq};
    ghost use Rattle.std.proofs.Common.{rules};
    ghost use Rattle.std.specs.Cmp.Rules.{comparing};

    ghost eq = { eq_of_both (on (λ need. need.asked) bytes_eq) (on (λ need. need.referrer) bytes_eq) };

    ghost laws = { Prim.search (comparing, rules) };

    fn eq(&self, other: &Row) -> bool {
        self.need.asked == other.need.asked && self.need.referrer == other.need.referrer
    }
}

impl Eq for Row {
    ghost use Rattle.std.proofs.Common.{rules};
    ghost use Rattle.std.specs.Cmp.Rules.{comparing};

    ghost laws = { Prim.search (comparing, rules) };
}

impl Ord for Row {
    ghost use Rattle.place_nodes.specs.Rows.{need_cmp};
    ghost use Rattle.std.proofs.Common.{rules};
    ghost use Rattle.std.specs.Cmp.Rules.{comparing};

    ghost cmp = { need_cmp };

    ghost total = { Prim.search (comparing, rules) };

    ghost matches_partial_cmp = { Prim.search (comparing, rules) };

    ghost matches_eq = { Prim.search (comparing, rules) };

    fn cmp(&self, other: &Row) -> Ordering {
        self.need
            .asked
            .cmp(&other.need.asked)
            .then(self.need.referrer.cmp(&other.need.referrer))
    }
}

impl PartialOrd for Row {
    ghost use Rattle.place_nodes.specs.Rows.{need_cmp};
    ghost use Rattle.std.specs.Ordering.{as_partial_cmp};
    ghost use Rattle.std.proofs.Common.{rules};
    ghost use Rattle.std.specs.Cmp.Rules.{comparing};
    ghost use Rattle.std.specs.Cmp.{partial_order_from_own_ties};

    ghost partial_cmp = { as_partial_cmp need_cmp };

    ghost laws = { partial_order_from_own_ties (Prim.search (comparing, rules)) (Prim.search (comparing, rules)) };

    fn partial_cmp(&self, other: &Row) -> Option<Ordering> {
        Some(self.cmp(other))
    }
}

/// The needs in order.
pub fn rows_in_order(alloc: Global, needs: &Needs) -> Result<Vec<Row>, Memory>
    ensures order { IfOk result (λ rows. InOrder rows.items) }
    ensures same { IfOk result (λ rows. (need : Need) → Contains needs.now need ↔ Contains rows.items need) }
{
    let mut rows = copied(alloc, needs)?;
    rows.sort()?;
    Ok(rows)
}

fn copied(alloc: Global, needs: &Needs) -> Result<Vec<Row>, Memory>
    ensures { IfOk result (λ rows. rows.items ≡ needs.now) }
{
    let mut rows = Vec::new(alloc);
    for index in 0..needs.len() {
        let Some(need) = needs.at(index) else {
            break;
        };
        rows.push(Row::copy_of(alloc, need)?)?;
    }
    Ok(rows)
}
