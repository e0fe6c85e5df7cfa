ghost use Rattle.std.specs.Prelude.{◌≡◌, ◌++◌, ◌∷◌, ◌+◌, List, map, IfOk, OnOk};
ghost use Rattle.layout_spec.specs.declared.Need.{Need};
ghost use Rattle.check_spec.specs.Differences.{differences, differences_from};
ghost use Rattle.map_check.specs.Shown.{shown, IsGot};

use crate::{Difference, Differences, Got};
use html_resolve::{HtmlFault, resolve_normalized};
use map_parse::ParsedMap;
use need_table::{Need, Needs};
use shared_types::Memory;
use std::alloc::{AllocError, Global};

/// The needs that a map doesn't serve, as those of a trace.
pub fn check_map(alloc: Global, needs: &Needs, parsed: &ParsedMap) -> Result<Differences, Memory>
    ensures { IfOk result (λ found. map shown found ≡ differences parsed.now needs.now) }
{
    let mut found = Differences::new(alloc);
    for number in 0..needs.len() {
        let Some(need) = needs.at(number) else {
            unreachable!();
        };
        put_difference(alloc, parsed, number, need, &mut found)?;
    }
    Ok(found)
}

// Puts the difference of a need, if it has one.
fn put_difference(
    alloc: Global,
    parsed: &ParsedMap,
    number: usize,
    need: &Need,
    found: &mut Differences,
) -> Result<(), Memory>
    ensures { OnOk result ((more : List Need)
        → map shown found.old ++ differences_from parsed.now number (need.now ∷ more)
        ≡ map shown found.new ++ differences_from parsed.now (number + 1) more) }
{
    match got(alloc, parsed, need)? {
        None => Ok(()),
        Some(got) => found.push(Difference { need: number, got }),
    }
}

// What a need comes to, where that isn't its target.
fn got(alloc: Global, parsed: &ParsedMap, need: &Need) -> Result<Option<Got>, Memory>
    ensures { IfOk result (IsGot parsed.now need.now) }
{
    match resolve_normalized(alloc, parsed, need.referrer.as_str(), need.asked.as_str()) {
        Ok(url) => {
            if url.as_str() == need.target.as_str() {
                Ok(None)
            } else {
                Ok(Some(Got::Url(url.into_text(alloc)?)))
            }
        }
        Err(HtmlFault::Blocked) => Ok(Some(Got::Blocked)),
        Err(HtmlFault::Bare) => Ok(Some(Got::Bare)),
        Err(HtmlFault::Backtrack) => Ok(Some(Got::Backtrack)),
        Err(HtmlFault::BadRest) => Ok(Some(Got::BadRest)),
        Err(HtmlFault::Memory) => Err(AllocError),
    }
}
