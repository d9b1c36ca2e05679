//! Which set runs on each component.
ghost use Rattle.std.specs.Prelude.{◌≡◌, ℕ, ◌<◌, IfSome, None, Some, length, replicate};
ghost use Rattle.papi_base.specs.declared.limits.TheConstants.{MOST_COMPONENTS, MOST_SETS};
ghost use Rattle.thread_core.specs.Refusing.{slot_faces};
ghost use Rattle.thread_core.specs.Running.{AreKnown, told_by};
ghost use Rattle.thread_slots.specs.Units.{owner_from};

use crate::refusal::runs_on;
use papi_base::{MOST_COMPONENTS, MOST_SETS};
use std::marker::Model;
use thread_slots::Slot;

/// What is kept of a component of which nothing is known.
pub(crate) const UNKNOWN: u8 = 255;

/// What is kept of a component on which no set runs.
pub(crate) const NO_SET: u8 = 254;

/// For each component the number of the set that runs on it, if one does, as soon as it has been asked for. A core forgets
/// it if its sets change otherwise than in their counts, so that between changes no occurrence looks at other sets.
#[derive(Drop)]
pub struct RunningSets {
    known: [u8; MOST_COMPONENTS],
}

impl Model for RunningSets {
    ghost use Rattle.std.specs.Prelude.{ℕ, List, Option, length, map, ◌≡◌};
    ghost use Rattle.papi_base.specs.declared.limits.TheConstants.{MOST_COMPONENTS};
    ghost use Rattle.thread_core.specs.Running.{told_by};

    ghost Value = { List (Option (Option ℕ)) };

    ghost view = { λ s. map told_by s.known };

    ghost invariant = { λ s. length s.known ≡ MOST_COMPONENTS };
}

/// The number of the set that runs on the component.
#[cold]
#[inline(never)]
fn running_on(slots: &Vec<Option<Slot>>, comp: u32) -> Option<u32>
    requires { length slots.now.items ≡ MOST_SETS }
    ensures number { result ≡ owner_from comp 0 (slot_faces slots.now.items) }
    ensures small { IfSome result (λ k. k < MOST_SETS) }
{
    for number in 0..MOST_SETS as u32 {
        if runs_on(Some(comp), &slots[number as usize]) {
            return Some(number);
        }
    }
    None
}

/// The number of the set that runs on a component, if it is known.
#[inline(always)]
fn told_by(kept: u8) -> Option<Option<u32>>
    ensures { result ≡ told_by kept }
{
    if kept == UNKNOWN {
        None
    } else if kept == NO_SET {
        Some(None)
    } else {
        Some(Some(u32::from(kept)))
    }
}

/// What is kept of a component on which this set runs, or none.
#[inline(always)]
#[tactic(auto, using(crate::proofs::Known::told_number))]
fn kept_of(number: Option<u32>) -> u8
    requires { IfSome number (λ k. k < MOST_SETS) }
    ensures { told_by result ≡ Some number }
{
    match number {
        Some(number) => number as u8,
        None => NO_SET,
    }
}

impl RunningSets {
    /// Nothing is known.
    pub(crate) fn new() -> RunningSets
        ensures { result ≡ replicate MOST_COMPONENTS None }
    {
        RunningSets {
            known: [UNKNOWN; MOST_COMPONENTS],
        }
    }

    /// Nothing is known any more.
    pub(crate) fn forget(&mut self)
        ensures { self.new ≡ replicate MOST_COMPONENTS None }
    {
        self.known = [UNKNOWN; MOST_COMPONENTS];
    }

    /// The number of the set that runs on the component.
    #[inline(always)]
    pub(crate) fn on(&mut self, slots: &Vec<Option<Slot>>, comp: u32) -> Option<u32>
        requires places { length slots.now.items ≡ MOST_SETS }
        requires within { (k : ℕ) → owner_from comp 0 (slot_faces slots.now.items) ≡ Some k
            → comp < MOST_COMPONENTS }
        requires known { AreKnown self.old slots.now.items }
        ensures number { result ≡ owner_from comp 0 (slot_faces slots.now.items) }
        ensures known { AreKnown self.new slots.now.items }
    {
        if comp >= MOST_COMPONENTS as u32 {
            return None;
        }
        if let Some(number) = told_by(self.known[comp as usize]) {
            return number;
        }
        let number = running_on(slots, comp);
        self.known[comp as usize] = kept_of(number);
        number
    }
}
