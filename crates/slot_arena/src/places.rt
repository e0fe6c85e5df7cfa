//! The places of all chunks, as one row.
ghost use Rattle.std.specs.Prelude.{◌≡◌, ◌++◌, ◌*◌, ◌<◌, [], length, replicate, get_or, slice_set, is_some};
ghost use Rattle.std.specs.Prelude.{OnOk, OnErr, Some, None};
ghost use Rattle.std.specs.Borrow.{sem};
ghost use Rattle.slot_arena.specs.Rows.{IsFilled, with_chunks, EndsEmpty};

use crate::chunk::{CHUNK, Chunk};
use shared_types::Memory;
use std::alloc::{AllocError, Global};
use std::marker::Model;

/// A contract sees the chunks as one row of places.
#[derive(Drop)]
pub(crate) struct Places<T> {
    alloc: Global,
    chunks: Vec<Chunk<T>>,
}

impl<T> Model for Places<T> {
    ghost use Rattle.std.specs.Prelude.{List, Option};
    ghost use Rattle.std.specs.Coded.{coded_list, coded_option};
    ghost use Rattle.slot_arena.specs.Rows.{joined, AreChunks};

    ghost Value = { List (Option T) };

    ghost coded = { coded_list (coded_option T.code) };

    ghost view = { λ p. joined p.chunks.items };

    ghost invariant = { λ p. AreChunks p.chunks.items };
}

impl<T> Places<T> {
    ghost use Rattle.slot_arena.specs.RowLends.{lends_from_row};

    /// No place.
    pub(crate) fn new(alloc: Global) -> Places<T>
        ensures { result ≡ [] }
    {
        Places {
            alloc,
            chunks: Vec::new(alloc),
        }
    }

    /// Makes this many chunks of empty places behind the others. Without memory all stays as it was.
    pub(crate) fn grow(&mut self, chunks: usize) -> Result<(), Memory>
        ensures ok { OnOk result (self.new ≡ self.old ++ replicate (chunks * 64) None) }
        ensures err { OnErr result (self.new ≡ self.old) }
    {
        add_chunks(&mut self.chunks, self.alloc, chunks)?;
        Ok(())
    }

    /// Whether the place has a value.
    pub(crate) fn holds(&self, place: usize) -> bool
        requires { place < length self.now }
        ensures { result ≡ is_some (get_or self.now place None) }
    {
        self.chunks[place / CHUNK].holds(place % CHUNK)
    }

    /// Puts a value into an empty place.
    pub(crate) fn put(&mut self, place: usize, value: T)
        requires { (place < length self.old) × (get_or self.old place None ≡ None) }
        ensures { self.new ≡ slice_set self.old place (Some value) }
    {
        self.chunks[place / CHUNK].put(place % CHUNK, value)
    }

    /// Takes the value out of its place.
    pub(crate) fn take(&mut self, place: usize) -> T
        requires { IsFilled self.old place }
        ensures value { get_or self.old place None ≡ Some result }
        ensures left { self.new ≡ slice_set self.old place None }
    {
        self.chunks[place / CHUNK].take(place % CHUNK)
    }

    /// The value of the place.
    pub(crate) fn at(&self, place: usize) -> &T
        requires { IsFilled self.now place }
        ensures { get_or self.now place None ≡ Some result.now }
    {
        self.chunks[place / CHUNK].at(place % CHUNK)
    }

    /// The value of the place, to be written to.
    pub(crate) fn at_mut(&mut self, place: usize) -> &mut T
        requires { IsFilled self.old place }
        ensures* writes_back { sem 𝓛 (lends_from_row T.row self.entry place result) }
        ensures value { get_or self.old place None ≡ Some result.now }
    {
        let chunk = &mut self.chunks[place / CHUNK];
        chunk.at_mut(place % CHUNK)
    }
}

/// Puts `count` chunks behind the others. Where memory ends before the last of them, those that were made are freed.
fn add_chunks<T>(chunks: &mut Vec<Chunk<T>>, alloc: Global, count: usize) -> Result<(), Memory>
    ensures ok { OnOk result (chunks.new.items ≡ with_chunks chunks.old.items count) }
    ensures err { OnErr result (chunks.new.items ≡ chunks.old.items) }
{
    chunks.reserve(count)?;
    for made in 0..count {
        let Ok(chunk) = Chunk::new(alloc) else {
            free_last(chunks, made);
            return Err(AllocError);
        };
        chunks.push_reserved(chunk);
    }
    Ok(())
}

/// Frees the last `count` chunks.
fn free_last<T>(chunks: &mut Vec<Chunk<T>>, count: usize)
    requires { EndsEmpty chunks.old.items count }
    ensures { chunks.old.items ≡ with_chunks chunks.new.items count }
{
    let mut left = count;
    while left > 0 {
        left -= 1;
        chunks.take_last().free();
    }
}
