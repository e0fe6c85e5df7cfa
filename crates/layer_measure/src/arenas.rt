//! An arena that is put to work, to show how long its calls take and how much memory it holds. Each answer is a sum that
//! can be told beforehand.

use crate::counted::Counted;
use crate::plain::Plain;
use slot_arena::{Slot, SlotArena};
use std::alloc::{AllocError, Global};
use std::cell::Cell;
use std::io;
use std::rt::Runtime;

/// How many values are live while values come and go.
const LIVE: usize = 1_024;

/// How many values are looked at.
const SEEN: u64 = 200_000;

/// How many values count their drops.
const COUNTED: u64 = 200;

/// As large as a module of the graph.
type Value = [u64; 16];

/// Inserts, and makes places first where none is spare; None without memory.
fn insert<T: Drop>(arena: &mut SlotArena<T>, value: T) -> Option<Slot> {
    if arena.spare() > 0 {
        return Some(arena.insert_reserved(value));
    }
    if arena.made() >= 1 << 31 || arena.reserve(1).is_err() || arena.spare() == 0 {
        return None;
    }
    Some(arena.insert_reserved(value))
}

/// Inserts this many values, each once the value of some rounds before was removed; the sum of those removed.
fn in_turn(alloc: Global, rounds: u64) -> Result<u64, AllocError> {
    let mut arena = SlotArena::new(alloc);
    let mut slots: Vec<Option<Slot>> = vec![in alloc; None; LIVE]?;
    let mut sum = 0u64;
    for value in 0..rounds {
        if let Some(place) = slots.get_mut(value as usize % LIVE) {
            if let Some(slot) = place.take() {
                sum = sum.wrapping_add(arena.remove(slot).unwrap_or(0));
            }
            *place = insert(&mut arena, value);
        }
    }
    Ok(sum)
}

/// The same with a vector of options and a list of its free places.
fn in_turn_plain(alloc: Global, rounds: u64) -> Result<u64, AllocError> {
    let mut plain = Plain::new(alloc);
    let mut places: Vec<Option<u32>> = vec![in alloc; None; LIVE]?;
    let mut sum = 0u64;
    for value in 0..rounds {
        if let Some(place) = places.get_mut(value as usize % LIVE) {
            if let Some(index) = place.take() {
                sum = sum.wrapping_add(plain.remove(index)?.unwrap_or(0));
            }
            *place = Some(plain.insert(value)?);
        }
    }
    Ok(sum)
}

/// An arena with this many values, and their slots in the order in which they were given.
fn filled(alloc: Global, count: u64) -> Result<(SlotArena<Value>, Vec<Slot>), AllocError> {
    let mut arena = SlotArena::new(alloc);
    let mut slots = Vec::new(alloc);
    for value in 0..count {
        if let Some(slot) = insert(&mut arena, [value; 16]) {
            slots.push(slot)?;
        }
    }
    Ok((arena, slots))
}

/// The slots in an order without a pattern: a generator of all numbers below 2^18 picks them.
fn shuffled(alloc: Global, slots: &[Slot]) -> Result<Vec<Slot>, AllocError> {
    let mut order = Vec::new(alloc);
    let mut place = 0u64;
    for _ in 0..1u64 << 18 {
        place = place.wrapping_mul(1_664_525).wrapping_add(1_013_904_223) & 0x3_ffff;
        if let Some(slot) = slots.get(place as usize) {
            order.push(*slot)?;
        }
    }
    Ok(order)
}

/// Looks at each of 200,000 values this often, in an order without a pattern; the sum of all that was seen.
fn looks(alloc: Global, rounds: u64) -> Result<u64, AllocError> {
    let (arena, slots) = filled(alloc, SEEN)?;
    let order = shuffled(alloc, &slots)?;
    let mut sum = 0u64;
    for _ in 0..rounds {
        for slot in &order {
            if let Some(value) = arena.get(*slot) {
                sum = sum.wrapping_add(value[0]);
            }
        }
    }
    Ok(sum)
}

/// Holds this many values at once; the sum of all.
fn held(alloc: Global, count: u64) -> Result<u64, AllocError> {
    let mut arena = SlotArena::new(alloc);
    let mut last = None;
    for value in 0..count {
        last = insert(&mut arena, [value; 16]);
    }
    match last {
        Some(slot) => Ok(arena.get(slot).map_or(0, |value| value[15])),
        None => Ok(0),
    }
}

/// Puts values in, takes every third out again and drops the arena; how many were dropped, and how many were put in.
/// One that isn't put in for want of memory is dropped too. So many pieces of memory are taken and given back before.
fn dropped(alloc: Global, before: u64) -> (u64, u64) {
    for number in 0..before {
        let _ = Box::new(alloc, number);
    }
    let drops = Cell::new(0);
    let mut arena = SlotArena::new(alloc);
    let mut put = 0u64;
    for value in 0..COUNTED {
        if let Some(slot) = insert(&mut arena, Counted::new(&drops)) {
            put = put.wrapping_add(1);
            if value % 3 == 0 {
                drop(arena.remove(slot));
            }
        }
    }
    drop(arena);
    (drops.get(), put)
}

fn tell_sum<R: Runtime>(rt: &R, sum: u64) -> io::Result<()> {
    println!(rt; "{sum}")
}

fn tell_dropped<R: Runtime + AllocGlobal>(rt: &R, before: u64) -> io::Result<()> {
    let (dropped, put) = dropped(rt.alloc(), before);
    println!(rt; "{dropped} dropped, {put} put in")
}

/// What a task comes to that is done as often as a number says; nothing where there is no task of this name.
pub fn tell<R: Runtime + AllocGlobal>(rt: &R, task: &str, number: &str) -> io::Result<()> {
    let Ok(rounds) = number.parse::<u64>() else {
        return Ok(());
    };
    match task {
        "turns" => tell_sum(rt, in_turn(rt.alloc(), rounds)?),
        "plain" => tell_sum(rt, in_turn_plain(rt.alloc(), rounds)?),
        "looks" => tell_sum(rt, looks(rt.alloc(), rounds)?),
        "held" => tell_sum(rt, held(rt.alloc(), rounds)?),
        "drops" => tell_dropped(rt, rounds),
        _ => Ok(()),
    }
}
