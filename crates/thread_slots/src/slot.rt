//! An event set under its number, and what is kept of it.
ghost use Rattle.std.specs.Prelude.{◌≡◌, ◌≤◌, IfOk, None, length, replicate};
ghost use Rattle.papi_base.specs.declared.limits.TheConstants.{MOST_SETS};
ghost use Rattle.session_model.specs.Faces.{free};
ghost use Rattle.thread_slots.specs.Slots.{is_counting, new_slot};

use crate::event_places::EventPlaces;
use crate::pins::Pins;
use event_sets::EventSet;
use multiplex::Rotation;
use overflow_dispatch::Thresholds;
use papi_base::{Counts, MOST_SETS, Values};
use std::alloc::{AllocError, Global};

/// How a set counts.
#[derive(Drop)]
pub enum Counting {
    /// It is stopped: what each native event counted, or is estimated to have.
    Stopped {
        kept: Counts,
    },
    /// It is on the unit of its component, which has the counts: its native events on their counters, its events with
    /// thresholds, and where the native events of each event stand.
    OnUnit {
        pins: Pins,
        armed: Thresholds,
        places: EventPlaces,
    },
    /// Its native events take turns, which began at a time in ticks: what each counted in the turns of its group.
    InTurns {
        rotation: Rotation,
        begun: u64,
        kept: Counts,
    },
}

/// An event set, and what is kept of it.
#[derive(Drop)]
pub struct Slot {
    pub set: EventSet,
    /// The caller's value of each event, PAPI_accum(3).
    pub values: Values,
    pub counting: Counting,
}

impl Slot {
    /// A new set.
    pub fn new() -> Slot
        ensures { result ≡ new_slot }
    {
        Slot {
            set: EventSet::new(),
            values: Values::new(),
            counting: Counting::Stopped {
                kept: Counts::new(),
            },
        }
    }

    /// Whether the set runs.
    #[inline]
    pub fn is_running(&self) -> bool
        ensures { result ≡ is_counting self.now.counting }
    {
        !matches!(self.counting, Counting::Stopped { .. })
    }
}

/// The least number with no set under it, or the number of places.
pub fn free_number(slots: &[Option<Slot>]) -> u32
    requires { length slots.now ≤ MOST_SETS }
    ensures { result ≡ free slots.now }
{
    let mut number = 0;
    for place in slots {
        if place.is_none() {
            return number;
        }
        number += 1;
    }
    number
}

/// The places of all sets, without sets.
pub fn empty_places(alloc: Global) -> Result<Vec<Option<Slot>>, AllocError>
    ensures { IfOk result (λ slots. slots.items ≡ replicate MOST_SETS None) }
{
    let mut slots = Vec::with_capacity(alloc, MOST_SETS)?;
    for _ in 0..MOST_SETS {
        slots.push_reserved(None);
    }
    Ok(slots)
}
