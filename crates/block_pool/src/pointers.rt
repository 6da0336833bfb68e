//! All that touches pointers: each function here is proved by hand.
ghost use Rattle.std.specs.Prelude.{◌≡◌, ◌*◌, ◌^◌, ◌<◌, true, false, get_or, set, replicate, IfOk};
ghost use types.Logic.{sem};
ghost use Rattle.core.specs.Mem.Slots.Ownership.{bytes_of};
ghost use Rattle.block_pool.specs.Cells.{IsSome, place_of, index_of, LiesIn, follows_at};

use crate::cells::{Cells, Deed, Place};
use std::alloc::{AllocError, Allocator};
use std::marker::PhantomData;
use std::mem::{align_of, size_of};

impl<T> Cells<T> {
    /// The place at the index.
    pub(crate) fn place(&self, index: usize) -> Place<T>
        requires { (index < self.now.count) × (get_or self.now.filled index false ≡ true) }
        ensures { (result.ptr ≡ place_of T.row self.now.base index) × IsSome self.now.base }
    {
        Place {
            ptr: unsafe { self.base.add(index) },
        }
    }

    /// Writes into the place at the index. What it held is forgotten.
    pub(crate) fn write(&mut self, index: usize, value: T)
        requires { index < self.old.count }
        ensures items { self.new.items ≡ set self.old.items index value }
        ensures filled { self.new.filled ≡ set self.old.filled index true }
        ensures places { (self.new.base ≡ self.old.base) × (self.new.count ≡ self.old.count) }
    {
        unsafe { self.base.add(index).write(value) }
    }

    /// The value that lies there.
    pub(crate) fn get(&self, at: Place<T>) -> &T
        requires { LiesIn T.row self.now at.ptr }
        ensures { result.now ≡ get_or self.now.items (index_of T.row self.now.base at.ptr) result.now }
    {
        let ptr = at.ptr;
        unsafe { &*ptr }
    }

    /// The value that lies there, to be written.
    pub(crate) fn get_mut(&mut self, at: Place<T>) -> &mut T
        requires { LiesIn T.row self.old at.ptr }
        ensures* writes_back { sem 𝓛 (follows_at T.row self.entry at.ptr result) }
        ensures value { result.now ≡ get_or self.old.items (index_of T.row self.old.base at.ptr) result.now }
    {
        let ptr = at.ptr;
        unsafe { &mut *ptr }
    }
}

/// Empty places for this many values.
pub(crate) fn allocate<T, A: Allocator>(
    alloc: &A,
    count: usize,
) -> Result<(Cells<T>, Deed<T, A>), AllocError>
    ghost like: { T }
    requires { count * bytes_of T.row < 2 ^ 63 }
    ensures { IfOk result (λ p. (p.0.count ≡ count) × (p.0.items ≡ replicate count like) × (p.0.filled ≡ replicate count false)
        × (p.1.base ≡ p.0.base) × (p.1.count ≡ p.0.count) × (p.1.alloc ≡ alloc.now)) }
{
    match alloc.allocate(count * size_of::<T>(), align_of::<T>()) {
        Ok(block) => {
            let base = block as *mut T;
            let by = PhantomData;
            Ok((Cells { base, count }, Deed { base, count, by }))
        }
        Err(refused) => Err(refused),
    }
}

/// Gives the block back, whatever its places hold.
pub(crate) fn deallocate<T, A: Allocator>(alloc: &A, cells: Cells<T>, deed: Deed<T, A>)
    requires { (deed.base ≡ cells.base) × (deed.count ≡ cells.count) × (deed.alloc ≡ alloc.now) }
{
    let Cells { base: _, count: _ } = cells;
    let Deed { base, count, by: _ } = deed;
    unsafe {
        alloc.deallocate(base as *mut u8, count * size_of::<T>(), align_of::<T>());
    }
}
