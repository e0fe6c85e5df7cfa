//! A chunk: 64 places that are made at once and stay where they are. So a look at a value goes through no table that
//! grows, and to make places copies no value.
ghost use Rattle.std.specs.Prelude.{◌≡◌, ◌<◌, length, replicate, get_or, slice_set, is_some, IfOk, Some, None};
ghost use Rattle.std.specs.Borrow.{sem};
ghost use Rattle.slot_arena.specs.Rows.{IsFilled};

use crate::block::{Right, Row, Start};
use shared_types::Memory;
use std::alloc::{AllocError, Global};
use std::marker::Model;
use std_alloc::room::may_hold;

/// How many places a chunk has.
pub(crate) const CHUNK: usize = 64;

/// A contract sees a chunk as the row of its places.
pub(crate) struct Chunk<T> {
    alloc: Global,
    start: Start<T>,
    row: Row<T>,
    right: Right<T, Global>,
    /// Which places have a value, which is dropped with the chunk. A slot whose value was taken out has the last
    /// generation of its place until that gives the next, so generations alone don't tell it.
    filled: [bool; 64],
}

impl<T> Model for Chunk<T> {
    ghost use Rattle.std.specs.Prelude.{List, Option};
    ghost use Rattle.std.specs.Coded.{coded_list, coded_option};
    ghost use Rattle.slot_arena.specs.ChunkParts.{AreParts};

    ghost Value = { List (Option T) };

    ghost coded = { coded_list (coded_option T.code) };

    ghost view = { λ c. c.row.places };

    ghost invariant = { λ c. AreParts c.alloc c.start c.row c.right c.filled };
}

impl<T> Chunk<T> {
    ghost use Rattle.slot_arena.specs.RowLends.{lends_from_chunk};

    /// 64 empty places.
    pub(crate) fn new(alloc: Global) -> Result<Chunk<T>, Memory>
        ensures { IfOk result (λ chunk. chunk ≡ replicate 64 None) }
    {
        if !may_hold::<T>(CHUNK) {
            return Err(AllocError);
        }
        let (start, row, right) = Start::new_block(&alloc, CHUNK)?;
        Ok(Chunk {
            alloc,
            start,
            row,
            right,
            filled: [false; 64],
        })
    }

    /// Whether the place has a value.
    pub(crate) fn holds(&self, place: usize) -> bool
        requires { place < length self.now }
        ensures { result ≡ is_some (get_or self.now place None) }
    {
        self.filled[place]
    }

    /// Puts a value into an empty place.
    pub(crate) fn put(&mut self, place: usize, value: T)
        requires { (place < length self.old) × (get_or self.old place None ≡ None) }
        ensures { self.new ≡ slice_set self.old place (Some value) }
    {
        self.filled[place] = true;
        self.row.put(self.start, place, value)
    }

    /// Takes the value out of its place.
    pub(crate) fn take(&mut self, place: usize) -> T
        requires { (place < length self.old) × IsFilled self.old place }
        ensures value { get_or self.old place None ≡ Some result }
        ensures left { self.new ≡ slice_set self.old place None }
    {
        self.filled[place] = false;
        self.row.take(self.start, place)
    }

    /// The value of the place.
    pub(crate) fn at(&self, place: usize) -> &T
        requires { (place < length self.now) × IsFilled self.now place }
        ensures { get_or self.now place None ≡ Some result.now }
    {
        self.row.at(self.start, place)
    }

    /// The value of the place, to be written to.
    pub(crate) fn at_mut(&mut self, place: usize) -> &mut T
        requires { (place < length self.old) × IsFilled self.old place }
        ensures* writes_back { sem 𝓛 (lends_from_chunk T.row self.entry place result) }
        ensures value { get_or self.old place None ≡ Some result.now }
    {
        let start = self.start;
        self.row.at_mut(start, place)
    }

    /// Gives the memory of an empty chunk back.
    pub(crate) fn free(self)
        requires { self ≡ replicate 64 None }
    {
        let Chunk {
            alloc,
            start,
            row,
            right,
            filled: _,
        } = self;
        Start::free_block(&alloc, start, CHUNK, row, right);
    }
}

impl<T: Drop> Drop for Chunk<T> {
    /// Drops each value that is there, once.
    fn drop(mut self) {
        let _filled = &self.filled;
        for place in 0..CHUNK {
            if self.holds(place) {
                drop(self.take(place));
            }
        }
        self.free();
    }
}
