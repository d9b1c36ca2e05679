//! Alternating paths from a place without a counter.
ghost use Rattle.std.specs.Prelude.{◌≡◌, ◌≢◌, ◌<◌, ◌≤◌, ◌⊎◌, ◌↔◌, ◌+◌, ℕ, List, length, slice_index, IfSome, IfNone, IfErr, OnOk, OnErr, IsTrue};
ghost use Rattle.papi_base.specs.declared.limits.TheConstants.{MOST_COUNTERS, MOST_SET_NATIVES};
ghost use Rattle.counter_alloc.specs.Assignments.{Has, IsAssignment, IsLeastDeficient};
ghost use Rattle.counter_alloc.specs.Search.{Holds, IsTrail, CanWalk, Grows, Reaches, IsFree, AreHeld};

use papi_base::{MOST_COUNTERS, MOST_SET_NATIVES};

/// The places reached so far from the one without a counter, in the order in which they were reached.
#[derive(Clone, Copy)]
pub struct Trail {
    order: [usize; MOST_SET_NATIVES],
    /// Where in `order` the place stands that wants the counter of this one.
    from: [usize; MOST_SET_NATIVES],
    count: usize,
    places: u32,
}

/// Whether a place or a counter is in a set, which is kept as bits.
pub fn has(set: u32, k: usize) -> bool
    requires { k < MOST_SET_NATIVES }
    ensures { IsTrue result ↔ Has set k }
{
    (set >> k) & 1 == 1
}

fn with(set: u32, k: usize) -> u32
    requires { k < MOST_SET_NATIVES }
    ensures same { Has result k }
    ensures others { (i : ℕ) → i ≢ k → (Has result i ↔ Has set i) }
{
    set | (1 << k)
}

/// The place other than `hole` that has the counter.
fn holder(chosen: &[u8], hole: usize, counter: u8) -> Option<usize>
    ensures found { IfSome result
        (λ i. (i < length chosen.now) × (i ≢ hole) × (slice_index chosen.now i ≡ counter)) }
    ensures none { IfNone result
        ((i : ℕ) → i < length chosen.now → i ≢ hole → slice_index chosen.now i ≢ counter) }
{
    for (i, held) in chosen.iter().enumerate() {
        if i != hole && *held == counter {
            return Some(i);
        }
    }
    None
}

/// Gives a free counter to the place at `at` of the trail, the one that it had to the place from which that was
/// reached, and so on to the place without a counter.
fn walk(chosen: &mut [u8], trail: &Trail, mut at: usize, mut counter: u8)
    requires { (allowed : List ℕ) × CanWalk allowed chosen.old trail.now at counter }
    ensures { (allowed : List ℕ) → CanWalk allowed chosen.old trail.now at counter
        → IsAssignment allowed chosen.new }
{
    while at > 0 {
        let place = trail.order[at];
        let freed = chosen[place];
        chosen[place] = counter;
        counter = freed;
        at = trail.from[at];
    }
    chosen[trail.order[0]] = counter;
}

/// The trail of the place without a counter alone.
fn begin(hole: usize) -> Trail
    requires { hole < MOST_SET_NATIVES }
    ensures count { result.count ≡ 1 }
    ensures order_slots { length result.order ≡ MOST_SET_NATIVES }
    ensures from_slots { length result.from ≡ MOST_SET_NATIVES }
    ensures first { slice_index result.order 0 ≡ hole }
    ensures places { (i : ℕ) → (Has result.places i ↔ (i ≡ hole)) }
{
    let mut order = [0; MOST_SET_NATIVES];
    order[0] = hole;
    Trail {
        order,
        from: [0; MOST_SET_NATIVES],
        count: 1,
        places: with(0, hole),
    }
}

/// Adds a place, reached from the one at `at`.
fn reach(trail: &mut Trail, place: usize, at: usize)
    requires room { trail.old.count < MOST_SET_NATIVES }
    requires place { place < MOST_SET_NATIVES }
    ensures { Reaches trail.old trail.new place at }
{
    trail.order[trail.count] = place;
    trail.from[trail.count] = at;
    trail.places = with(trail.places, place);
    trail.count += 1;
}

/// Goes through the counters that the place at `at` is allowed. A free one is the answer. The holders of the others
/// are reached.
fn visit(allowed: &[u32], chosen: &[u8], hole: usize, trail: &mut Trail, at: usize) -> Option<u8>
    requires few { length allowed.now ≤ MOST_SET_NATIVES }
    requires held { Holds allowed.now chosen.now hole }
    requires trail { IsTrail allowed.now chosen.now hole trail.old }
    requires at { at < trail.old.count }
    ensures trail { IsTrail allowed.now chosen.now hole trail.new }
    ensures grows { Grows trail.old trail.new }
    ensures free { IfSome result (IsFree chosen.now hole) }
    ensures wanted { IfSome result
        (Has (slice_index allowed.now (slice_index trail.old.order at))) }
    ensures held { IfNone result
        (AreHeld allowed.now chosen.now hole trail.new.places
        (slice_index trail.old.order at) MOST_COUNTERS) }
{
    let place = trail.order[at];
    for counter in 0..MOST_COUNTERS as u8 {
        if has(allowed[place], counter as usize) {
            match holder(chosen, hole, counter) {
                None => return Some(counter),
                Some(next) => {
                    if !has(trail.places, next) {
                        reach(trail, next, at);
                    }
                }
            }
        }
    }
    None
}

/// Gives the place without a counter one, moving others along an alternating path. If there is none, the places
/// that were reached are the least deficient set, and nothing has changed.
pub fn augment(allowed: &[u32], chosen: &mut [u8], hole: usize) -> Result<(), u32>
    requires few { length allowed.now ≤ MOST_SET_NATIVES }
    requires hole { hole < length allowed.now }
    requires held { Holds allowed.now chosen.old hole }
    ensures ok { OnOk result (IsAssignment allowed.now chosen.new) }
    ensures err { IfErr result (IsLeastDeficient allowed.now) }
    ensures unchanged { OnErr result (chosen.new ≡ chosen.old) }
{
    let mut trail = begin(hole);
    let mut at = 0;
    while at < trail.count {
        if let Some(counter) = visit(allowed, chosen, hole, &mut trail, at) {
            walk(chosen, &trail, at, counter);
            return Ok(());
        }
        at += 1;
    }
    Err(trail.places)
}
