//! Lists of at most 32 items, in arrays.
ghost use Rattle.std.specs.Prelude.{◌≡◌, ◌+◌, ◌<◌, ◌≤◌, List, [], ◌∷◌, ◌++◌, length, slice_get, Some, slice_set, replicate};
ghost use Rattle.papi_base.specs.declared.limits.TheConstants.{MOST_ITEMS};

use crate::limits::MOST_ITEMS;
use crate::{EventRef, Native};
use std::marker::Model;

/// A list of at most [`MOST_ITEMS`] items. Contracts see the list.
#[derive(Debug, Drop)]
pub struct ShortList<T> {
    items: [T; MOST_ITEMS],
    count: u32,
}

/// Counts.
pub type Counts = ShortList<u64>;

/// Signed values, as PAPI_read(3) gives them.
pub type Values = ShortList<i64>;

/// Native events.
pub type Natives = ShortList<Native>;

/// What a set's events are named by.
pub type Events = ShortList<EventRef>;

/// Counters, one for each place of a list of native events.
pub type Places = ShortList<u8>;

impl<T> Model for ShortList<T> {
    ghost use Rattle.std.specs.Prelude.{List, take, length, ◌≤◌, ◌≡◌};
    ghost use Rattle.papi_base.specs.declared.limits.TheConstants.{MOST_ITEMS};

    ghost Value = { List T };

    ghost view = { λ s. take s.count s.items };

    ghost invariant = { λ s. (s.count ≤ MOST_ITEMS) × (length s.items ≡ MOST_ITEMS) };
}

impl<T: Copy> ShortList<T> {
    /// The empty list.
    pub fn new() -> ShortList<T>
    where
        T: Default,
        ensures empty { result ≡ [] }
    {
        ShortList {
            items: [T::default(); MOST_ITEMS],
            count: 0,
        }
    }

    /// An item n times.
    pub fn repeated(x: T, n: u32) -> ShortList<T>
        requires room { n ≤ MOST_ITEMS }
        ensures repeated { result ≡ replicate n x }
    {
        ShortList {
            items: [x; MOST_ITEMS],
            count: n,
        }
    }

    /// How many items it has.
    #[inline(always)]
    pub fn len(&self) -> u32
        ensures length { result ≡ length self.now }
        ensures short { length self.now ≤ MOST_ITEMS }
    {
        self.count
    }

    /// The item at a place, and none if there is no such place.
    #[inline(always)]
    pub fn get(&self, i: u32) -> Option<T>
        ensures item { result ≡ slice_get self.now i }
    {
        if i < self.count {
            Some(self.items[i as usize])
        } else {
            None
        }
    }

    /// The item at a place that is there.
    #[inline(always)]
    pub fn at(&self, i: u32) -> T
        requires place { i < length self.now }
        ensures item { slice_get self.now i ≡ Some result }
    {
        let items = &self.items;
        items[i as usize]
    }

    /// One more item at the end.
    #[inline(always)]
    pub fn push(&mut self, x: T)
        requires room { length self.old < MOST_ITEMS }
        ensures pushed { self.new ≡ self.old ++ x ∷ [] }
    {
        self.items[self.count as usize] = x;
        self.count += 1;
    }

    /// Another item at a place that is there.
    #[inline(always)]
    pub fn put(&mut self, i: u32, x: T)
        requires place { i < length self.old }
        ensures put { self.new ≡ slice_set self.old i x }
    {
        let items = &mut self.items;
        items[i as usize] = x;
    }

    /// The same list once more.
    pub fn copy(&self) -> ShortList<T>
        ensures same { result ≡ self.now }
    {
        ShortList {
            items: self.items,
            count: self.count,
        }
    }
}
