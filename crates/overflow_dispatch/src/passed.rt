//! The events that passed their thresholds at one occurrence.
ghost use Rattle.std.specs.Prelude.{◌≡◌, ◌<◌, ◌≤◌, All, [], ◌∷◌, ◌++◌, drop, length, slice_get};
ghost use Rattle.papi_base.specs.declared.limits.TheConstants.{MOST_SET_EVENTS};

use papi_base::MOST_SET_EVENTS;
use std::marker::Model;

/// Indexes of a set's events, in increasing order. Contracts see the list of them; they are kept as bits, since there are none
/// at most occurrences.
#[derive(Drop)]
pub struct Passed {
    bits: u32,
    len: u32,
}

impl Model for Passed {
    ghost use Rattle.std.specs.Prelude.{List, ℕ};
    ghost use Rattle.papi_base.specs.declared.limits.TheConstants.{MOST_SET_EVENTS};
    ghost use Rattle.overflow_dispatch.specs.Passing.{AreIndexes, places_from};

    ghost Value = { List ℕ };

    ghost view = { λ s. places_from s.bits 0 MOST_SET_EVENTS };

    ghost invariant = { λ s. AreIndexes s.bits s.len };
}

impl Passed {
    /// None passed.
    #[inline(always)]
    pub fn new() -> Passed
        ensures { result ≡ [] }
    {
        Passed { bits: 0, len: 0 }
    }

    /// The same indexes once more.
    #[inline(always)]
    pub fn copied(&self) -> Passed
        ensures { result ≡ self.now }
    {
        Passed {
            bits: self.bits,
            len: self.len,
        }
    }

    /// How many passed.
    #[inline(always)]
    pub fn len(&self) -> u32
        ensures length { result ≡ length self.now }
        ensures short { length self.now ≤ MOST_SET_EVENTS }
    {
        self.len
    }

    /// Takes the first index out, if there is one.
    #[inline(always)]
    pub fn pop_first(&mut self) -> Option<u32>
        ensures first { result ≡ slice_get self.old 0 }
        ensures rest { self.new ≡ drop 1 self.old }
    {
        if self.bits == 0 {
            return None;
        }
        let index = self.bits.trailing_zeros();
        self.bits &= !(1 << index);
        self.len -= 1;
        Some(index)
    }

    /// The index at this place from 0, if there is one.
    pub fn get(&self, i: u32) -> Option<u32>
        ensures { result ≡ slice_get self.now i }
    {
        if i >= self.len {
            return None;
        }
        let mut left = self.copied();
        for _before in 0..i {
            left.pop_first();
        }
        left.pop_first()
    }

    /// One index more, above all others.
    #[inline(always)]
    pub(crate) fn push(&mut self, index: u32)
        requires below { index < MOST_SET_EVENTS }
        requires above { All (λ other. other < index) self.old }
        ensures { self.new ≡ self.old ++ index ∷ [] }
    {
        self.bits |= 1 << index;
        self.len += 1;
    }
}
