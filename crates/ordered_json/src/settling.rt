ghost use Rattle.std.specs.Prelude.{◌≡◌, ◌<◌, length, None, IsTrue, IfOk, OnOk, bytes_eq};
ghost use Rattle.std.specs.List.{list_any};
ghost use Rattle.json_spec.specs.Value.{settled, names_of, AreDistinct};
ghost use Rattle.ordered_json.specs.Shown.{members_of};
ghost use Rattle.ordered_json.specs.Pairs.{IsReplaced, IsIndexed, PutsPair, place_of};

use crate::value::Value;
use shared_types::{Memory, Text};
use std::alloc::{AllocError, Global};
use std::collections::BTreeMap;

/// In how many pairs each name is looked for among those behind it. The names of more are indexed.
const FEW: usize = 8;

/// Members among which no name stands twice, and the place of each.
#[derive(Drop)]
struct Settling {
    kept: Vec<(Text, Value)>,
    places: BTreeMap<Text, usize>,
    alloc: Global,
}

/// The members of an object whose text writes these pairs: a name that is repeated stands where it is written first,
/// with the value that is written last. It takes n log n comparisons of names, whatever they are, so names that
/// somebody made up for it cost no more than others.
pub fn settle(alloc: Global, written: Vec<(Text, Value)>) -> Result<Vec<(Text, Value)>, Memory>
    ensures { IfOk result (λ kept. members_of kept.items ≡ settled (members_of written.items)) }
{
    if few_are_distinct(written.as_slice()) {
        return Ok(written);
    }
    settle_many(alloc, written)
}

// Whether the pairs are few and no name stands twice among them: each is compared with each.
fn few_are_distinct(pairs: &[(Text, Value)]) -> bool
    ensures { IsTrue result → AreDistinct (members_of pairs.now) }
{
    if pairs.len() > FEW {
        return false;
    }
    let mut rest = pairs;
    while let Some((pair, more)) = rest.split_first() {
        if has_name(more, &pair.0) {
            return false;
        }
        rest = more;
    }
    true
}

fn has_name(pairs: &[(Text, Value)], name: &Text) -> bool
    ensures { result ≡ list_any (bytes_eq name.now) (names_of (members_of pairs.now)) }
{
    let mut rest = pairs;
    while let Some((pair, more)) = rest.split_first() {
        if *name == pair.0 {
            return true;
        }
        rest = more;
    }
    false
}

// The same as `settle`, by an index of the names.
fn settle_many(alloc: Global, written: Vec<(Text, Value)>) -> Result<Vec<(Text, Value)>, Memory>
    ensures { IfOk result (λ kept. members_of kept.items ≡ settled (members_of written.items)) }
{
    let mut settling = Settling {
        kept: Vec::new(alloc),
        places: BTreeMap::new(alloc),
        alloc,
    };
    let mut rest = written;
    rest.reverse();
    while let Some((name, value)) = rest.pop() {
        settling.put(name, value)?;
    }
    let Settling { kept, .. } = settling;
    Ok(kept)
}

impl Settling {
    fn put(&mut self, name: Text, value: Value) -> Result<(), Memory>
        requires { IsIndexed self.old.places self.old.kept.items }
        ensures indexed { OnOk result (IsIndexed self.new.places self.new.kept.items) }
        ensures put { OnOk result (PutsPair name value self.old.kept.items self.new.kept.items) }
    {
        let found = self.places.get(&name).copied();
        match found {
            Some(place) => {
                replace_value(&mut self.kept, place, value);
                Ok(())
            }
            None => self.push(name, value),
        }
    }

    // The same of a name that is new.
    fn push(&mut self, name: Text, value: Value) -> Result<(), Memory>
        requires indexed { IsIndexed self.old.places self.old.kept.items }
        requires new { place_of name self.old.kept.items ≡ None }
        ensures indexed { OnOk result (IsIndexed self.new.places self.new.kept.items) }
        ensures put { OnOk result (PutsPair name value self.old.kept.items self.new.kept.items) }
    {
        let place = self.kept.as_slice().len();
        match self.places.insert(name.copy(self.alloc)?, place) {
            Ok(_) => {}
            Err(failed) => return Err(AllocError::from(failed)),
        }
        self.kept.push((name, value))?;
        Ok(())
    }
}

fn replace_value(pairs: &mut Vec<(Text, Value)>, place: usize, value: Value)
    requires { place < length pairs.old.items }
    ensures { IsReplaced place value pairs.old.items pairs.new.items }
{
    let pair = &mut pairs[place];
    pair.1 = value;
}
