//! Native events on counters of their own.
ghost use Rattle.std.specs.Prelude.{◌≡◌, ◌<◌, ◌≤◌, ◌+◌, ◌^◌, ◌∷◌, ◌++◌, ◌↔◌, [], ℕ, List, length, remove, slice_index, EachIndex, IfErr, OnOk, OnErr, IsTrue};
ghost use Rattle.papi_base.specs.declared.limits.TheConstants.{MOST_COUNTERS, MOST_SET_NATIVES};
ghost use Rattle.counter_alloc.specs.Assignments.{Assignable, IsLeast, Deficient, counters_of as counters_allowed};
ghost use Rattle.counter_alloc.specs.Matchings.{MatchingView};
ghost use Rattle.counter_alloc.specs.Listing.{least};
ghost use Rattle.counter_alloc.specs.Blames.{IsBlame};

use crate::augment::{augment, has};
use crate::lowest::settle_all;
use papi_base::{MOST_SET_NATIVES, Places};
use std::marker::Model;

/// Why a native event cannot be added: PAPI_ECNFLCT of PAPI_add_event(3).
#[derive(Clone, Copy, Debug, PartialEq, Eq)]
pub struct Blame {
    /// The places of the least set that has more members than allowed counters, bit k for place k.
    pub members: u32,
    /// The counters that any of them is allowed, bit k for counter k.
    pub counters: u32,
}

/// A list of at most 32 sets of allowed counters, bit k for counter k, with a counter of its own for each.
///
/// A place is the position of a native event in the list. No call takes memory.
#[derive(Drop)]
pub struct Matching {
    counters: u32,
    count: usize,
    allowed: [u32; MOST_SET_NATIVES],
    chosen: [u8; MOST_SET_NATIVES],
}

impl Model for Matching {
    ghost use Rattle.std.specs.Prelude.{take};
    ghost use Rattle.counter_alloc.specs.Matchings.{MatchingView, IsMatching};

    ghost Value = { MatchingView };

    ghost view = { λ m. record { counters = m.counters; allowed = take m.count m.allowed } };

    ghost invariant = { λ m. IsMatching m.counters m.count m.allowed m.chosen };
}

/// The counters that any member of the set of places is allowed.
fn counters_of(allowed: &[u32], members: u32) -> u32
    requires { length allowed.now ≤ MOST_SET_NATIVES }
    ensures { result ≡ counters_allowed allowed.now members }
{
    let mut counters = 0;
    for (place, mask) in allowed.iter().enumerate() {
        if has(members, place) {
            counters |= *mask;
        }
    }
    counters
}

impl Matching {
    /// No native events yet, on n counters.
    pub fn empty(counters: u32) -> Self
        requires { counters ≤ MOST_COUNTERS }
        ensures { result ≡ record { counters = counters; allowed = [] } }
    {
        Matching {
            counters,
            count: 0,
            allowed: [0; MOST_SET_NATIVES],
            chosen: [0; MOST_SET_NATIVES],
        }
    }

    /// Adds a native event that is allowed these counters, if all can then have counters of their own. A refusal
    /// changes nothing.
    pub fn add(&mut self, allowed: u32) -> Result<(), Blame>
        requires room { length self.old.allowed < MOST_SET_NATIVES }
        requires in_range { allowed < 2 ^ self.old.counters }
        ensures added { OnOk result
            (self.new ≡ record self.old { allowed = self.old.allowed ++ allowed ∷ [] }) }
        ensures assignable { OnOk result (Assignable (self.old.allowed ++ allowed ∷ [])) }
        ensures not_assignable { OnErr result (Assignable (self.old.allowed ++ allowed ∷ []) → ⊥) }
        ensures blame { IfErr result (IsBlame (self.old.allowed ++ allowed ∷ [])) }
        ensures deficient { IfErr result
            (λ blame. Deficient (self.old.allowed ++ allowed ∷ []) blame.members) }
        ensures unchanged { OnErr result (self.new ≡ self.old) }
    {
        let place = self.count;
        let end = place + 1;
        self.allowed[place] = allowed;
        let mut chosen = self.chosen;
        match augment(&self.allowed[..end], &mut chosen[..end], place) {
            Ok(()) => {
                self.chosen = chosen;
                self.count = end;
                Ok(())
            }
            Err(members) => {
                let counters = counters_of(&self.allowed[..end], members);
                Err(Blame { members, counters })
            }
        }
    }

    /// Takes the native event at the place away. Later places move down by one.
    pub fn remove(&mut self, place: u32)
        requires { place < length self.old.allowed }
        ensures { self.new ≡ record self.old { allowed = remove self.old.allowed place } }
    {
        let gap = place as usize;
        for i in gap + 1..self.count {
            self.allowed[i - 1] = self.allowed[i];
            self.chosen[i - 1] = self.chosen[i];
        }
        self.count -= 1;
    }

    /// The counter of each place in the assignment that comes first, compared place by place.
    pub fn least(&self) -> Places
        ensures least { IsLeast self.now.allowed result }
        ensures first { least self.now.allowed ≡ Some result }
    {
        let mut allowed = self.allowed;
        let mut chosen = self.chosen;
        let count = self.count;
        settle_all(&mut allowed[..count], &mut chosen[..count]);
        let mut places = Places::new();
        for counter in &chosen[..count] {
            places.push(*counter);
        }
        places
    }

    /// Whether all the further native events could be added.
    pub fn would_fit(&self, more: &[u32]) -> bool
        requires room { length self.now.allowed + length more.now ≤ MOST_SET_NATIVES }
        requires in_range { EachIndex more.now
            (λ i. slice_index more.now i < 2 ^ self.now.counters) }
        ensures { IsTrue result ↔ Assignable (self.now.allowed ++ more.now) }
    {
        let mut trial = self.copy();
        for allowed in more {
            if trial.add(*allowed).is_err() {
                return false;
            }
        }
        true
    }

    /// The same list once more.
    pub fn copy(&self) -> Matching
        ensures { result ≡ self.now }
    {
        Matching {
            counters: self.counters,
            count: self.count,
            allowed: self.allowed,
            chosen: self.chosen,
        }
    }
}
