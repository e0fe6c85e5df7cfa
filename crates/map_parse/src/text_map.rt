ghost use Rattle.std.specs.Prelude.{◌≡◌, ◌<◌, ◌≤◌, ℕ, length, take, IfOk, OnOk, None, option_copied, true};
ghost use Rattle.std.specs.FinMap.{get, insert, empty};
ghost use Rattle.map_parse.specs.TextMaps.{IsAscending, IsPlace};

use shared_types::{Memory, Text};
use std::alloc::Global;
use std::marker::Model;

/// How many bytes are compared at once.
const BLOCK: usize = 64;

/// A map from texts. It is one sorted list, so that an entry takes no memory beside its key and its value, and a `&str`
/// is looked up by halves.
#[derive(Drop)]
pub struct TextMap<V> {
    entries: Vec<(Text, V)>,
}

impl<V> Model for TextMap<V> {
    ghost use Rattle.std.specs.Prelude.{List, ℕ};
    ghost use Rattle.std.specs.Ordering.{nat_cmp};
    ghost use Rattle.std.specs.Cmp.Lexicographic.{slice_cmp};
    ghost use Rattle.std.specs.List.Sorted.{IsSortedByKey};
    ghost use Rattle.std.specs.FinMap as map;
    ghost use Rattle.std.specs.Coded.{coded_ℕ, coded_list};

    ghost Value = { map.FinMap (slice_cmp nat_cmp) V };

    ghost coded = { map.code (coded_list coded_ℕ) V.code };

    ghost use Rattle.map_parse.specs.TextMaps.{first_wins, IsAscending};

    ghost view = { λ m. first_wins m.entries.items };

    ghost invariant = { λ m. IsAscending m.entries.items };
}

impl<V> TextMap<V> {
    /// What stands at a key.
    pub fn get(&self, key: &str) -> Option<&V>
        ensures { option_copied result ≡ get self.now key.now }
    {
        self.get_near(key, 0).0
    }

    /// The same with the place of the key among all keys, as they ascend. Where that is the place that is given, it is
    /// found at once.
    pub fn get_near(&self, key: &str, near: usize) -> (Option<&V>, usize)
        ensures { option_copied result.0 ≡ get self.now key.now }
    {
        let entries = self.entries.as_slice();
        let at = place_near(entries, key, near);
        match entries.get(at) {
            None => (None, at),
            Some(entry) => {
                if entry.0.as_str() == key {
                    (Some(&entry.1), at)
                } else {
                    (None, at)
                }
            }
        }
    }

    /// How far keys go with a text: of its fronts that are longer, none is a key. What they have in common with the
    /// greatest key that isn't above the text is that far.
    pub fn reach(&self, text: &str) -> usize
        ensures within { result ≤ length text.now }
        ensures none { (n : ℕ) → result < n → n ≤ length text.now → get self.now (take n text.now) ≡ None }
    {
        let entries = self.entries.as_slice();
        let behind = entries.partition_point(|entry| entry.0.as_str() <= text);
        if behind == 0 {
            return 0;
        }
        match entries.get(behind - 1) {
            None => text.len(),
            Some(entry) => common_front(text.as_bytes(), entry.0.as_str().as_bytes()),
        }
    }
}

// The place of the first key that isn't below a text.
fn place_near<V>(entries: &[(Text, V)], text: &str, near: usize) -> usize
    requires { IsAscending entries.now }
    ensures { IsPlace text.now entries.now result }
{
    if is_place(entries, text, near) {
        return near;
    }
    entries.partition_point(|entry| entry.0.as_str() < text)
}

// Whether a key that isn't below the text stands there, and behind one that is.
fn is_place<V>(entries: &[(Text, V)], text: &str, at: usize) -> bool
    requires { IsAscending entries.now }
    ensures { result ≡ true → IsPlace text.now entries.now at }
{
    match entries.get(at) {
        None => return false,
        Some(entry) => {
            if entry.0.as_str() < text {
                return false;
            }
        }
    }
    if at == 0 {
        return true;
    }
    match entries.get(at - 1) {
        None => false,
        Some(entry) => entry.0.as_str() < text,
    }
}

// How many bytes two texts begin with alike.
fn common_front(one: &[u8], other: &[u8]) -> usize
    ensures within { result ≤ length one.now }
    ensures longest { (n : ℕ) → n ≤ length one.now → take n other.now ≡ take n one.now → n ≤ result }
{
    for at in common_blocks(one, other)..one.len() {
        match other.get(at) {
            None => return at,
            Some(byte) => {
                if *byte != one[at] {
                    return at;
                }
            }
        }
    }
    one.len()
}

// How many bytes are in the blocks that two texts begin with alike.
fn common_blocks(one: &[u8], other: &[u8]) -> usize {
    let mut left = one;
    let mut right = other;
    while left.len() >= BLOCK && right.len() >= BLOCK {
        let (block, more) = left.split_at(BLOCK);
        let (beside, behind) = right.split_at(BLOCK);
        if block != beside {
            break;
        }
        left = more;
        right = behind;
    }
    one.len() - left.len()
}

/// The entries of a map as they are put into it: a later one takes the place of an earlier one with its key.
#[derive(Drop)]
pub struct Gathering<V> {
    entries: Vec<(Text, V)>,
}

impl<V> Model for Gathering<V> {
    ghost use Rattle.std.specs.Prelude.{List, ℕ};
    ghost use Rattle.std.specs.Ordering.{nat_cmp};
    ghost use Rattle.std.specs.Cmp.Lexicographic.{slice_cmp};
    ghost use Rattle.std.specs.FinMap as map;
    ghost use Rattle.std.specs.Coded.{coded_ℕ, coded_list};

    ghost Value = { map.FinMap (slice_cmp nat_cmp) V };

    ghost coded = { map.code (coded_list coded_ℕ) V.code };

    ghost use Rattle.map_parse.specs.TextMaps.{last_wins};

    ghost view = { λ m. last_wins m.entries.items };
}

impl<V: Drop> Gathering<V> {
    /// No entry yet, and room for this many.
    #[tactic(auto, using(crate::proofs::TextMapLemmas::text_maps))]
    pub fn with_room(alloc: Global, room: usize) -> Result<Gathering<V>, Memory>
        ensures { IfOk result (λ gathering. gathering ≡ empty) }
    {
        Ok(Gathering {
            entries: Vec::with_capacity(alloc, room)?,
        })
    }

    /// Puts a value at a key.
    #[tactic(auto, using(crate::proofs::TextMapLemmas::text_maps))]
    pub fn put(&mut self, key: Text, value: V) -> Result<(), Memory>
        ensures { OnOk result (self.new ≡ insert self.old key value) }
    {
        self.entries.push((key, value))?;
        Ok(())
    }

    /// The map.
    pub fn into_map(self) -> Result<TextMap<V>, Memory>
        ensures { IfOk result (λ map. map ≡ self) }
    {
        let Gathering { mut entries } = self;
        entries.reverse();
        entries.sort_by(|one, other| one.0.cmp(&other.0))?;
        Ok(TextMap { entries })
    }
}
