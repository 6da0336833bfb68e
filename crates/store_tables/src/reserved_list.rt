//! A list whose memory is reserved once.
ghost use Rattle.std.specs.Prelude.{◌≡◌, ◌<◌, ◌≤◌, ◌∷◌, ◌++◌, [], length, set, IfOk, get_or};
ghost use Rattle.std.specs.List.{insert, remove};

use std::alloc::{AllocError, Global};
use std::marker::Model;

/// A list of at most `N` values. `new` reserves the memory for all of them, and no other call takes any. So the values lie neither in
/// the struct that holds the list nor on the stack, and memory for values that never come is not written.
///
/// A contract sees the list of the values.
#[derive(Drop, Debug)]
pub struct ReservedList<T: Copy, const N: usize> {
    items: Vec<T>,
}

impl<T: Copy, const N: usize> Model for ReservedList<T, N> {
    ghost use Rattle.std.specs.Prelude.{List, ◌≤◌, vec_capacity};

    ghost Value = { List T };

    ghost view = { λ r. r.items.items };

    ghost invariant = { λ r. N ≤ vec_capacity r.items };
}

impl<T: Copy, const N: usize> ReservedList<T, N> {
    /// No value, and memory for `N` of them. It fails only where there is none.
    pub fn new(alloc: Global) -> Result<ReservedList<T, N>, AllocError>
        ensures { IfOk result (λ r. r ≡ []) }
    {
        Ok(ReservedList {
            items: Vec::with_capacity(alloc, N)?,
        })
    }

    /// The values in order.
    pub fn as_slice(&self) -> &[T]
        ensures { result.now ≡ self.now }
    {
        self.items.as_slice()
    }

    /// The number of values.
    pub fn len(&self) -> usize
        ensures { result ≡ length self.now }
    {
        self.items.len()
    }

    /// Forgets all values. The memory stays.
    pub fn clear(&mut self)
        ensures { self.new ≡ [] }
    {
        self.items.clear();
    }

    /// Appends a value.
    pub fn push(&mut self, value: T)
        requires room { length self.old < N }
        ensures items { self.new ≡ self.old ++ value ∷ [] }
    {
        // The memory was reserved.
        self.items.push(value).unwrap();
    }

    /// Replaces the value at a place.
    pub fn set(&mut self, place: usize, value: T)
        requires { place < length self.old }
        ensures { self.new ≡ set self.old place value }
    {
        self.items[place] = value;
    }

    /// Inserts a value before the one at a place, or after the last.
    pub fn insert(&mut self, place: usize, value: T)
        requires within { place ≤ length self.old }
        requires room { length self.old < N }
        ensures items { self.new ≡ insert self.old place value }
    {
        // The memory was reserved.
        self.items.insert(place, value).unwrap();
    }

    /// Removes the value at a place, and answers it.
    pub fn remove(&mut self, place: usize) -> T
        requires { place < length self.old }
        ensures value { result ≡ get_or self.old place result }
        ensures items { self.new ≡ remove self.old place }
    {
        self.items.remove(place)
    }
}
