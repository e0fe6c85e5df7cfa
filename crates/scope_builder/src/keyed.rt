ghost use Rattle.std.specs.Prelude.{◌≡◌, ◌==◌, List, [], ◌∷◌, ◌++◌, ℕ, length, slice_get, option_map, if◌then◌else◌};
ghost use Rattle.std.specs.Prelude.{is_ok, IfOk};
ghost use Rattle.scope_builder.specs.Keys.{InKeyOrder, IsPlace, with_value};

use shared_types::{Memory, Text};
use std::alloc::Global;
use std::collections::BTreeMap;
use std::marker::Model;

/// A list of pairs in the byte order of their keys, which are texts.
#[derive(Drop)]
pub struct Keyed<V> {
    items: Vec<(Text, V)>,
}

impl<V> Model for Keyed<V> {
    ghost use Rattle.std.specs.Prelude.{List, ℕ};
    ghost use Rattle.scope_builder.specs.Keys.{InKeyOrder};

    ghost Value = { List (List ℕ × V) };

    ghost view = { λ k. k.items.items };

    ghost invariant = { λ k. InKeyOrder k.items.items };
}

/// The mappings at one place of a map: specifiers and the URLs to which they are mapped.
pub type Mappings = Keyed<Text>;

/// The scopes of a map: scope keys, each with its mappings.
pub type Scopes = Keyed<Mappings>;

/// What a printed map holds besides digests.
#[derive(Drop)]
pub struct Layout {
    pub imports: Mappings,
    pub scopes: Scopes,
}

impl<V> Keyed<V> {
    /// The empty list.
    pub fn new(alloc: Global) -> Keyed<V>
        ensures { result ≡ [] }
    {
        Keyed {
            items: Vec::new(alloc),
        }
    }

    /// The number of pairs.
    pub fn len(&self) -> usize
        ensures { result ≡ length self.now }
    {
        self.items.as_slice().len()
    }

    /// Whether there is no pair.
    pub fn is_empty(&self) -> bool
        ensures { result ≡ (length self.now == 0) }
    {
        self.items.as_slice().is_empty()
    }

    /// The pair with this number, counted from 0.
    pub fn at(&self, index: usize) -> Option<(&Text, &V)>
        ensures { option_map (λ p. (p.0.now, p.1.now)) result ≡ slice_get self.now index }
    {
        match self.items.as_slice().get(index) {
            None => None,
            Some(pair) => Some((&pair.0, &pair.1)),
        }
    }

    /// Lends the pairs.
    pub fn as_slice(&self) -> &[(Text, V)]
        ensures pairs { result.now ≡ self.now }
        ensures in_order { InKeyOrder self.now }
    {
        self.items.as_slice()
    }
}

impl<V: Drop> Keyed<V> {
    /// Puts a pair at the end, whose key is greater than the last one. Without memory the list stays as it was.
    pub fn push(&mut self, key: Text, value: V) -> Result<(), Memory>
        requires { InKeyOrder (self.old ++ (key, value) ∷ []) }
        ensures { self.new ≡ (if is_ok result then self.old ++ (key, value) ∷ [] else self.old) }
    {
        self.items.push((key, value))?;
        Ok(())
    }

    /// Puts a value in the place of the one that a key has. Where the key isn't there, the list stays as it was.
    pub fn set(&mut self, key: &Text, value: V)
        ensures { self.new ≡ with_value self.old key.now value }
    {
        let place = place_of(self.items.as_slice(), key);
        put_at(&mut self.items, place, key, value);
    }

    /// The entries of an ordered map, which are moved.
    pub fn from_map(alloc: Global, map: BTreeMap<Text, V>) -> Result<Keyed<V>, Memory>
        ensures entries { IfOk result (λ keyed. keyed ≡ map.entries) }
        ensures in_order { IfOk result InKeyOrder }
    {
        let _count = map.len();
        Ok(Keyed {
            items: map.into_iter().collect(alloc)?,
        })
    }
}

// The place of the first key that isn't below this one.
fn place_of<V>(pairs: &[(Text, V)], key: &Text) -> usize
    requires { InKeyOrder pairs.now }
    ensures { IsPlace pairs.now key.now result }
{
    pairs.partition_point(|pair| pair.0 < *key)
}

// Puts a value at a key, where that stands at its place.
fn put_at<V: Drop>(pairs: &mut Vec<(Text, V)>, place: usize, key: &Text, value: V)
    requires order { InKeyOrder pairs.old.items }
    requires place { IsPlace pairs.old.items key.now place }
    ensures { pairs.new.items ≡ with_value pairs.old.items key.now value }
{
    if let Some(pair) = pairs.get_mut(place) {
        if pair.0 == *key {
            pair.1 = value;
        }
    }
}
