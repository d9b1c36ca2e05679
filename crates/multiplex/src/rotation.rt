//! The groups of a multiplexed set, and which of them runs.
ghost use Rattle.std.specs.Prelude.{◌≡◌, ℕ, ◌+◌, ◌*◌, ◌/◌, ◌%◌, ◌<◌, ◌≤◌, ◌^◌, ◌∷◌, ◌++◌, [], All, length, slice_index, true};
ghost use Rattle.counter_alloc.specs.Listing.{is_assignable};
ghost use Rattle.counter_alloc.specs.Masks.{AreMasks, masks_of};
ghost use Rattle.papi_base.specs.declared.native.Native.{Native};
ghost use Rattle.papi_base.specs.declared.limits.TheConstants.{LARGEST_AMOUNT, MOST_COUNTERS, MOST_SET_NATIVES};
ghost use Rattle.multiplex.specs.Groups.{groups, group_count};
ghost use Rattle.multiplex.specs.Rotations.{AreOrdered, IsSliceOf, IsSpanOf, RotationView};
ghost use Rattle.multiplex.specs.Turns.{group_at, active, estimate};

use counter_alloc::Matching;
use papi_base::{Natives, Places};
use std::marker::Model;

/// Neighbouring places of a list: the first one, and the one behind the last.
#[derive(Clone, Copy)]
pub struct Span {
    pub first: u32,
    pub end: u32,
}

/// A slice of the time: its first tick, and the places of the group that runs in it.
#[derive(Clone, Copy)]
struct Slice {
    first: u64,
    places: Span,
}

/// The groups of at most 32 native events, the length of a slice in ticks, and the time: PAPI_set_multiplex(3).
///
/// No call takes memory.
#[derive(Drop)]
pub struct Rotation {
    numbers: Places,
    groups: u32,
    slice: u32,
    time: u64,
    kept: Slice,
}

impl Model for Rotation {
    ghost use Rattle.multiplex.specs.Rotations.{RotationView, IsTurning};

    ghost Value = { RotationView };

    ghost view = { λ r. record { numbers = r.numbers; turns = record { slice = r.slice; count = r.groups; start = 0 }; time = r.time } };

    ghost invariant = { λ r. IsTurning r.numbers r.groups r.slice r.kept.first r.kept.places.first r.kept.places.end };
}

/// The places of a group.
fn places_of(numbers: &Places, group: u32) -> Span
    requires { AreOrdered numbers.now }
    ensures { IsSpanOf numbers.now group result.first result.end }
{
    let mut places = Span { first: 0, end: 0 };
    for i in 0..numbers.len() {
        let number = u32::from(numbers.at(i));
        if number < group {
            places.first = i + 1;
        }
        if number <= group {
            places.end = i + 1;
        }
    }
    places
}

/// The slice that a time is in.
fn slice_at(numbers: &Places, slice: u32, groups: u32, time: u64) -> Slice
    requires some_slice { 0 < slice }
    requires some_group { 0 < groups }
    requires ordered { AreOrdered numbers.now }
    ensures slice { IsSliceOf numbers.now slice groups
        result.first result.places.first result.places.end }
    ensures places { IsSpanOf numbers.now (time / slice % groups)
        result.places.first result.places.end }
{
    let ticks = u64::from(slice);
    let number = time / ticks;
    let group = (number % u64::from(groups)) as u32;
    Slice {
        first: number * ticks,
        places: places_of(numbers, group),
    }
}

/// Adds a native event to the group's matching if it fits, and says whether it does.
fn joins(group: &mut Matching, mask: u32) -> bool
    requires room { length group.old.allowed < MOST_SET_NATIVES }
    requires few { group.old.counters ≤ MOST_COUNTERS }
    requires in_range { mask < 2 ^ group.old.counters }
    requires masks { AreMasks group.old.allowed }
    ensures fits { result ≡ is_assignable (group.old.allowed ++ mask ∷ []) }
    ensures joined { result ≡ true
        → group.new ≡ record group.old { allowed = group.old.allowed ++ mask ∷ [] } }
{
    group.add(mask).is_ok()
}

/// A group of one native event.
fn group_of_one(counters: u32, mask: u32) -> Matching
    requires few { counters ≤ MOST_COUNTERS }
    requires some { 0 < mask }
    requires in_range { mask < 2 ^ counters }
    ensures { result ≡ record { counters = counters; allowed = mask ∷ [] } }
{
    let mut group = Matching::empty(counters);
    let _fits = joins(&mut group, mask);
    group
}

impl Rotation {
    /// The groups of the native events, in their order, over a component with n counters. A native event joins the
    /// last group if all of that group can then have counters of their own, and else begins the next one. The time
    /// is 0.
    pub fn make(natives: &Natives, counters: u32, slice: u32) -> Rotation
        requires some { 0 < length natives.now }
        requires few { counters ≤ MOST_COUNTERS }
        requires allowed { All (λ n. 0 < n.allowed) natives.now }
        requires in_range { All (λ n. n.allowed < 2 ^ counters) natives.now }
        requires slice { 0 < slice }
        ensures { let numbers = groups (masks_of natives.now) in
            result ≡ record {
              numbers = numbers;
              turns = record { slice = slice; count = group_count numbers; start = 0 };
              time = 0;
            } }
    {
        let mut numbers = Places::new();
        let mut group = Matching::empty(counters);
        let mut number = 0u8;
        for i in 0..natives.len() {
            let mask = natives.at(i).allowed;
            if !joins(&mut group, mask) {
                number += 1;
                group = group_of_one(counters, mask);
            }
            numbers.push(number);
        }
        let kept = Slice {
            first: 0,
            places: places_of(&numbers, 0),
        };
        Rotation {
            numbers,
            groups: u32::from(number) + 1,
            slice,
            time: 0,
            kept,
        }
    }

    /// How many groups there are.
    pub fn groups(&self) -> u32
        ensures { result ≡ self.now.turns.count }
    {
        self.groups
    }

    /// The number of the group of the native event at a place, from 0.
    #[inline(always)]
    pub fn group_of(&self, place: u32) -> u32
        requires { place < length self.now.numbers }
        ensures group { result ≡ slice_index self.now.numbers place }
        ensures below { result < self.now.turns.count }
    {
        u32::from(self.numbers.at(place))
    }

    /// The group that runs at a time, in ticks.
    #[inline(always)]
    pub fn group_at(&self, time: u64) -> u32
        ensures group { result ≡ group_at self.now.turns time }
        ensures below { result < self.now.turns.count }
    {
        let number = time / u64::from(self.slice) % u64::from(self.groups);
        number as u32
    }

    /// The places of the group that runs at a time, in ticks. The slice of that time is kept, so that nothing is divided
    /// or searched at a later time in it.
    #[inline(always)]
    pub fn running_places(&mut self, time: u64) -> Span
        ensures places { IsSpanOf self.old.numbers (group_at self.old.turns time)
            result.first result.end }
        ensures same { self.new ≡ self.old }
    {
        let first = self.kept.first;
        if first <= time && time - first < u64::from(self.slice) {
            return self.kept.places;
        }
        self.kept = slice_at(&self.numbers, self.slice, self.groups, time);
        self.kept.places
    }

    /// The group that runs now.
    pub fn group(&self) -> u32
        ensures group { result ≡ group_at self.now.turns self.now.time }
        ensures below { result < self.now.turns.count }
    {
        self.group_at(self.time)
    }

    /// The time goes on to this tick.
    pub fn advance(&mut self, time: u64)
        requires { self.old.time ≤ time }
        ensures { self.new ≡ record self.old { time = time } }
    {
        self.time = time;
    }

    /// How many of the ticks below `total` belong to the group.
    pub fn active(&self, group: u32, total: u64) -> u64
        requires group { group < self.now.turns.count }
        requires total { total < 2 ^ 32 }
        ensures active { result ≡ active self.now.turns group total }
        ensures within { result ≤ total }
    {
        let slice = u64::from(self.slice);
        let turn = slice * u64::from(self.groups);
        let before = u64::from(group) * slice;
        let part = (total % turn).saturating_sub(before);
        total / turn * slice + part.min(slice)
    }
}

/// What a native event would have counted over `total` ticks, if it counted `count` in the `active` ones, rounded
/// down; 0 if none was active.
#[tactic(auto, using(crate::proofs::Estimates::estimate_some))]
pub fn estimate(count: u64, total: u64, active: u64) -> u64
    requires within { active ≤ total }
    requires total { total < 2 ^ 32 }
    requires count { count ≤ LARGEST_AMOUNT * active }
    ensures { result ≡ estimate count total active }
{
    if active == 0 {
        return 0;
    }
    count / active * total + count % active * total / active
}
