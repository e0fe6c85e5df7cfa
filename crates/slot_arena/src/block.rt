//! A block of memory as a row of places, each empty or with a value: the one module with raw pointers. Its six
//! functions make a block, put a value into a place, lend it, lend it to be written to, take it out, and give the
//! block back.
ghost use Rattle.std.specs.Prelude.{◌≡◌, ℕ, ◌<◌, List, Option, Some, None, length, replicate, get_or, slice_set, IfOk};
ghost use Rattle.std.specs.Prelude.{⊤};
ghost use Rattle.std.specs.Borrow.{sem};
ghost use Rattle.std.specs.Vec.Ownership.{FitsInBlock};
ghost use base.Fml.{ftrue};
ghost use denote.RawPtr.{Ptr};
ghost use Rattle.slot_arena.specs.Blocks.{block_held, block_lent, right_held};

use shared_types::Memory;
use std::alloc::Allocator;
use std::marker::{Model, PhantomData};
use std::mem::{align_of, size_of};

/// Where a block begins. It owns nothing, so it may be copied.
pub(crate) struct Start<T> {
    first: *mut T,
}

impl<T> Clone for Start<T> {
    ghost is_clone = { λ x y. y ≡ x };

    ghost is_infallible = { λ _. ⊤ };

    fn clone(&self) -> Result<Start<T>, Memory> {
        Ok(*self)
    }
}

impl<T> Copy for Start<T> {}

/// The owner of the places of a block, and of the values in them. It takes no room itself.
pub(crate) struct Row<T> {
    mark: PhantomData<*const T>,
    ghost start: { Ptr },
    ghost places: { List (Option T) },
}

impl<T> Model for Row<T> {
    ghost also_owns = { λ r. block_held T.row r.start r.places };

    ghost also_shares = { λ r _ κ. block_lent T.row r.start r.places κ };
}

/// The right to give a block of `count` places back to the allocator that it came from. It takes no room itself.
pub(crate) struct Right<T, A: Allocator> {
    mark: PhantomData<*const (T, A)>,
    ghost start: { Ptr },
    ghost count: { ℕ },
    ghost from: { A },
}

impl<T, A: Allocator> Model for Right<T, A> {
    ghost also_owns = { λ r. right_held T.row (A.dealloc_token r.from) r.start r.count };

    ghost also_shares = { λ _ _ _. ftrue };
}

impl<T> Start<T> {
    ghost use Rattle.slot_arena.specs.BlockParts.{IsEmptyBlock};

    /// A block of `count` empty places.
    pub(crate) fn new_block<A: Allocator>(
        alloc: &A,
        count: usize,
    ) -> Result<(Start<T>, Row<T>, Right<T, A>), Memory>
        requires { FitsInBlock T.row count }
        ensures { IfOk result (λ b. IsEmptyBlock b.0 b.1 b.2 count alloc.now) }
    {
        match alloc.allocate(count * size_of::<T>(), align_of::<T>()) {
            Ok(memory) => {
                let start = Start {
                    first: memory as *mut T,
                };
                Ok((
                    start,
                    Row { mark: PhantomData },
                    Right { mark: PhantomData },
                ))
            }
            Err(want) => Err(want),
        }
    }

    /// Gives a block without values back.
    pub(crate) fn free_block<A: Allocator>(
        alloc: &A,
        start: Start<T>,
        count: usize,
        row: Row<T>,
        right: Right<T, A>,
    )
        requires { IsEmptyBlock start row right count alloc.now }
    {
        let Row { mark: _ } = row;
        let Right { mark: _ } = right;
        unsafe {
            alloc.deallocate(
                start.first as *mut u8,
                count * size_of::<T>(),
                align_of::<T>(),
            );
        }
    }
}

impl<T> Row<T> {
    ghost use Rattle.slot_arena.specs.BlockLends.{lends_from_block};
    ghost use Rattle.slot_arena.specs.BlockParts.{IsEmptyAt, IsFilledAt, IsSetAt};

    /// Puts a value into an empty place.
    pub(crate) fn put(&mut self, start: Start<T>, place: usize, value: T)
        requires { IsEmptyAt self.old start place }
        ensures { IsSetAt self.old self.new place (Some value) }
    {
        unsafe { start.first.add(place).write(value) }
    }

    /// Takes the value out of its place.
    pub(crate) fn take(&mut self, start: Start<T>, place: usize) -> T
        requires { IsFilledAt self.old start place }
        ensures value { get_or self.old.places place None ≡ Some result }
        ensures left { IsSetAt self.old self.new place None }
    {
        unsafe { start.first.add(place).read() }
    }

    /// Lends the value of the place.
    pub(crate) fn at(&self, start: Start<T>, place: usize) -> &T
        requires { IsFilledAt self.now start place }
        ensures { get_or self.now.places place None ≡ Some result.now }
    {
        unsafe { &*start.first.add(place) }
    }

    /// Lends the value of the place, to be written to.
    pub(crate) fn at_mut(&mut self, start: Start<T>, place: usize) -> &mut T
        requires { IsFilledAt self.old start place }
        ensures* writes_back { sem 𝓛 (lends_from_block T.row self.entry place result) }
        ensures value { get_or self.old.places place None ≡ Some result.now }
    {
        unsafe { &mut *start.first.add(place) }
    }
}
