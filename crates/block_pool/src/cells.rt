//! Values side by side in one block of memory.
ghost use Rattle.std.specs.Prelude.{◌≡◌, ◌^◌, ◌<◌, ⊤, Bool, List, length};
ghost use denote.RawPtr.{null_ptr};
ghost use Rattle.core.specs.Mem.Slots.Ownership.{owned, lent, leased};

use std::alloc::{AllocError, Allocator};
use std::marker::{Model, PhantomData};
use std::ptr::null_mut;

/// Where a value lies. It owns nothing.
pub struct Place<T> {
    pub(crate) ptr: *mut T,
}

impl<T> Clone for Place<T> {
    ghost is_clone = { λ x y. y ≡ x };

    ghost is_infallible = { λ _. ⊤ };

    fn clone(&self) -> Result<Place<T>, AllocError> {
        Ok(*self)
    }
}

impl<T> Copy for Place<T> {}

/// This many places for values, one after another. `filled` says which hold one; an empty place keeps in `items` what no one reads.
pub struct Cells<T> {
    pub(crate) base: *mut T,
    pub(crate) count: usize,
    ghost items: { List T },
    ghost filled: { List Bool },
    ghost ok: { (count ≡ length items) × (count ≡ length filled) },
    ghost small: { count < 2 ^ 64 },
}

impl<T> Model for Cells<T> {
    ghost also_owns = { λ c. owned T.row c.base c.count c.items c.filled };

    ghost also_shares = { λ c _ κ. lent T.row c.base c.count c.items c.filled κ };
}

/// The right to free the block of this many places.
pub struct Deed<T, A: Allocator> {
    pub(crate) base: *mut T,
    pub(crate) count: usize,
    pub(crate) by: PhantomData<A>,
    ghost alloc: { A },
}

impl<T, A: Allocator> Model for Deed<T, A> {
    ghost also_owns = { λ d. leased (A.dealloc_token d.alloc) T.row d.base d.count };
}

impl<T> Place<T> {
    /// No place.
    pub(crate) fn none() -> Place<T>
        ensures { result.ptr ≡ null_ptr }
    {
        Place { ptr: null_mut() }
    }
}
