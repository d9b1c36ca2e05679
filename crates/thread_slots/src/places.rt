//! Places of native events in lists.
ghost use Rattle.std.specs.Prelude.{◌≡◌, ◌+◌, ◌≤◌, ◌<◌, drop, length};
ghost use Rattle.std.specs.List.{position_or_len};
ghost use Rattle.postfix_rules.specs.Sameness.{same_native};
ghost use Rattle.thread_slots.specs.FirstPlaces.{AreFirst, key_of};
ghost use Rattle.thread_slots.specs.declared.places.TheConstants.{KEYS};

use event_sets::is_same;
use papi_base::{MOST_SET_NATIVES, Native, Natives};

/// How many keys there are.
const KEYS: usize = 128;

/// A place beyond each list of native events.
const NOWHERE: u8 = MOST_SET_NATIVES as u8;

/// The place of a native event in the list from a place on, or the length of the list if it is not in it from there.
#[inline(always)]
#[tactic(auto, using(papi_base::proofs::Steps::found_here, papi_base::proofs::Steps::found_later))]
fn place_from(natives: &Natives, from: u32, n: &Native) -> u32
    requires { from ≤ length natives.now }
    ensures place { result ≡ from + position_or_len (same_native n.now) (drop from natives.now) }
    ensures within { result ≤ length natives.now }
{
    for i in from..natives.len() {
        if is_same(n, &natives.at(i)) {
            return i;
        }
    }
    natives.len()
}

/// The place of a native event in the list, or the length of the list if it is not in it.
pub fn place_of(natives: &Natives, n: &Native) -> u32
    ensures place { result ≡ position_or_len (same_native n.now) natives.now }
    ensures within { result ≤ length natives.now }
{
    place_from(natives, 0, n)
}

/// The key of a native event, by which it is looked up.
#[inline(always)]
fn key_of(n: &Native) -> u32
    ensures value { result ≡ key_of n.now }
    ensures below { result < KEYS }
{
    let kernel = if n.mods.kernel { 37 } else { 0 };
    (n.event % KEYS as u32 + u32::from(n.masks) % 37 + kernel) % KEYS as u32
}

/// For each key the first place at which a native event of a list has it, so that one comparison mostly finds a place.
#[derive(Drop)]
pub(crate) struct FirstPlaces {
    first: [u8; KEYS],
}

impl FirstPlaces {
    /// Those of a list.
    pub(crate) fn of(natives: &Natives) -> FirstPlaces
        ensures { AreFirst result.first natives.now }
    {
        let mut first = [NOWHERE; KEYS];
        for i in 0..natives.len() {
            let key = key_of(&natives.at(i)) as usize;
            first[key] = first[key].min(i as u8);
        }
        FirstPlaces { first }
    }

    /// The place of a native event in that list, as [`place_of`] gives it.
    pub(crate) fn place_of(&self, natives: &Natives, n: &Native) -> u32
        requires { AreFirst self.now.first natives.now }
        ensures place { result ≡ position_or_len (same_native n.now) natives.now }
        ensures within { result ≤ length natives.now }
    {
        let from = u32::from(self.first[key_of(n) as usize]);
        place_from(natives, from.min(natives.len()), n)
    }
}
