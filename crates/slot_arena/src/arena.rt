ghost use Rattle.std.specs.Prelude.{◌≡◌, ◌↔◌, ◌+◌, ◌*◌, ◌-◌, ◌^◌, ◌<◌, ◌≤◌, ℕ, length, replicate, option_copied, IfOk};
ghost use Rattle.std.specs.Prelude.{OnOk, OnErr, Some, None, IsTrue, IsSome, ◌++◌, ◌∷◌, [], vec_len, vec_capacity};
ghost use Rattle.slot_arena.specs.Slots.{value_at, IsFresh, set_at, with_places, taken_from};
ghost use Rattle.slot_arena.specs.Counts.{spare, live, wanted, IsArena};
ghost use Rattle.slot_arena.specs.Kept.{HasRoom, down_to};
ghost use Rattle.std.specs.Option.{option_copied_mut};

use crate::chunk::CHUNK;
use crate::places::Places;
use crate::slot::Slot;
use shared_types::Memory;
use std::alloc::Global;
use std::marker::Model;

/// The generation after the last one that a slot can have.
const SPENT: u64 = 1 << 32;

/// Values under slots. Dropping it drops each live value once.
#[derive(Drop)]
pub struct SlotArena<T> {
    places: Places<T>,
    /// The generation that each place gives next.
    next: Vec<u64>,
    /// The places that have a slot to give, the next one at the end.
    free: Vec<u32>,
    count: u32,
}

impl<T> Model for SlotArena<T> {
    ghost use Rattle.std.specs.Prelude.{List, vec_capacity};
    ghost use Rattle.slot_arena.specs.Codes.{places_code};
    ghost use Rattle.slot_arena.specs.Slots.{Place};
    ghost use Rattle.slot_arena.specs.Kept.{AreFields, paired};

    ghost Value = { List (Place T) };

    ghost coded = { places_code T.code };

    ghost view = { λ a. paired a.places a.next.items };

    ghost invariant = { λ a. AreFields a.places a.next.items a.free.items a.count (vec_capacity a.free) };
}

impl<T> SlotArena<T> {
    /// An arena with no place. It takes no memory yet.
    pub fn new(alloc: Global) -> SlotArena<T>
        ensures { result ≡ [] }
    {
        SlotArena {
            places: Places::new(alloc),
            next: Vec::new(alloc),
            free: Vec::new(alloc),
            count: 0,
        }
    }

    /// How many values can be inserted before memory is needed.
    pub fn spare(&self) -> u32
        ensures { result ≡ spare self.now }
    {
        self.free.len() as u32
    }

    /// How many slots are live.
    pub fn len(&self) -> u32
        ensures { result ≡ live self.now }
    {
        self.count
    }

    /// How many places there are, those included that have no slot left to give.
    pub fn made(&self) -> u32
        ensures count { result ≡ length self.now }
        ensures sound { IsArena self.now }
    {
        self.next.len() as u32
    }

    /// Whether a value is under the slot.
    fn is_live(&self, at: Slot) -> bool
        ensures { IsTrue result ↔ IsSome (value_at self.now at) }
    {
        let place = at.index as usize;
        if place >= self.next.len() {
            return false;
        }
        if self.next[place] != at.generation as u64 + 1 {
            return false;
        }
        self.places.holds(place)
    }

    /// The value under a slot.
    pub fn get(&self, at: Slot) -> Option<&T>
        ensures { option_copied result ≡ value_at self.now at }
    {
        if !self.is_live(at) {
            return None;
        }
        Some(self.places.at(at.index as usize))
    }
}

impl<T> SlotArena<T> {
    ghost use Rattle.std.specs.Borrow.{sem};
    ghost use Rattle.slot_arena.specs.Lends.{lends_value};

    /// The value under a slot, to be written to.
    pub fn get_mut(&mut self, at: Slot) -> Option<&mut T>
        ensures* writes_back { sem 𝓛 (lends_value T.row self.entry at result) }
        ensures value { option_copied_mut result ≡ value_at self.old at }
    {
        if !self.is_live(at) {
            return None;
        }
        Some(self.places.at_mut(at.index as usize))
    }

    /// Puts a value under a slot that was never given before.
    pub fn insert_reserved(&mut self, value: T) -> Slot
        requires { 0 < spare self.old }
        ensures fresh { IsFresh self.old result }
        ensures placed { self.new ≡ set_at self.old result (Some value) }
    {
        let Some(index) = self.free.pop() else {
            unreachable!()
        };
        let place = index as usize;
        let generation = self.next[place];
        self.next[place] = generation + 1;
        self.count += 1;
        self.places.put(place, value);
        Slot {
            index,
            generation: generation as u32,
        }
    }

    /// Takes out the value under a slot. Its place is given out again under other slots, while it has any.
    pub fn remove(&mut self, at: Slot) -> Option<T>
        ensures value { result ≡ value_at self.old at }
        ensures left { self.new ≡ taken_from self.old at result }
    {
        if !self.is_live(at) {
            return None;
        }
        let place = at.index as usize;
        let value = self.places.take(place);
        self.count -= 1;
        if self.next[place] < SPENT {
            self.free.push_reserved(at.index);
            return Some(value);
        }
        Some(value)
    }
}

/// How many chunks are made until `n` places are free, where `spare` are.
fn chunks_wanted(spare: usize, n: u32) -> usize
    ensures { result * 64 ≡ wanted spare n }
{
    ((n as usize).saturating_sub(spare) + (CHUNK - 1)) / CHUNK
}

/// Room in both tables for `more` places beside those that there are.
fn make_room(next: &mut Vec<u64>, free: &mut Vec<u32>, more: usize) -> Result<(), Memory>
    requires small { vec_len next.old + more < 2 ^ 32 }
    requires fewer { vec_len free.old ≤ vec_len next.old }
    ensures same { (next.new.items ≡ next.old.items) × (free.new.items ≡ free.old.items) }
    ensures kept { vec_capacity free.old ≤ vec_capacity free.new }
    ensures room { IfOk result (λ _. HasRoom (vec_len next.new + more)
        (vec_capacity next.new) (vec_capacity free.new)) }
{
    next.reserve(more)?;
    free.reserve(next.len() + more - free.len())
}

/// Notes `count` places from `from` on as free, the first of them at the end. Each gives generation 0 next.
fn add_places(next: &mut Vec<u64>, free: &mut Vec<u32>, from: u32, count: u32)
    requires next_room { vec_len next.old + count ≤ vec_capacity next.old }
    requires free_room { vec_len free.old + count ≤ vec_capacity free.old }
    requires small { from + count < 2 ^ 32 }
    ensures next { next.new.items ≡ next.old.items ++ replicate count 0 }
    ensures free { free.new.items ≡ free.old.items ++ down_to from count }
    ensures capacity { vec_capacity free.new ≡ vec_capacity free.old }
{
    let mut left = count;
    while left > 0 {
        left -= 1;
        next.push_reserved(0);
        free.push_reserved(from + left);
    }
}

impl<T> SlotArena<T> {
    /// Makes places until `n` values can be inserted. Without memory all stays as it was.
    pub fn reserve(&mut self, n: u32) -> Result<(), Memory>
        requires { length self.old + n < 2 ^ 32 - 64 }
        ensures ok { OnOk result (self.new ≡ with_places self.old (wanted (spare self.old) n)) }
        ensures err { OnErr result (self.new ≡ self.old) }
    {
        let made = self.next.len();
        let spare = self.free.len();
        let chunks = chunks_wanted(spare, n);
        let more = chunks * CHUNK;
        make_room(&mut self.next, &mut self.free, more)?;
        self.places.grow(chunks)?;
        add_places(&mut self.next, &mut self.free, made as u32, more as u32);
        Ok(())
    }
}
