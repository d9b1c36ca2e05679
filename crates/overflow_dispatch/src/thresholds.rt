//! The armed events of a set (PAPI_overflow(3)).
ghost use Rattle.std.specs.Prelude.{◌≡◌, ◌<◌, slice_set, replicate, None, Some};
ghost use Rattle.papi_base.specs.declared.limits.TheConstants.{MOST_COUNTERS, MOST_SET_EVENTS};
ghost use Rattle.overflow_dispatch.specs.Passing.{carried_from};

use crate::passed::Passed;
use papi_base::MOST_SET_EVENTS;
use std::marker::Model;

/// The events with thresholds, each with the counter that its native is on. Contracts see for each
/// index the counter, if the event of this index is armed.
#[derive(Drop)]
pub struct Thresholds {
    counters: [Option<u8>; MOST_SET_EVENTS],
    /// No event of this index or a later one is armed.
    end: u32,
}

impl Model for Thresholds {
    ghost use Rattle.std.specs.Prelude.{List, Option, ℕ};
    ghost use Rattle.overflow_dispatch.specs.Passing.{AreCounters, IsEnd};

    ghost Value = { List (Option ℕ) };

    ghost view = { λ s. s.counters };

    ghost invariant = { λ s. AreCounters s.counters × IsEnd s.counters s.end };
}

impl Thresholds {
    /// No event is armed.
    pub fn new() -> Thresholds
        ensures { result ≡ replicate MOST_SET_EVENTS None }
    {
        Thresholds {
            counters: [None; MOST_SET_EVENTS],
            end: 0,
        }
    }

    /// The event of this index is armed, and its native is on the counter `c`.
    pub fn arm(&mut self, c: u32, index: u32)
        requires counter { c < MOST_COUNTERS }
        requires index { index < MOST_SET_EVENTS }
        ensures { self.new ≡ slice_set self.old index (Some c) }
    {
        self.counters[index as usize] = Some(c as u8);
        self.end = self.end.max(index + 1);
    }

    /// The indexes of the armed events whose counters are among the carries, in increasing order.
    #[cold]
    pub fn passed(&self, carry: u32) -> Passed
        ensures { result ≡ carried_from 0 carry self.now }
    {
        let mut passed = Passed::new();
        for index in 0..self.end {
            if let Some(c) = self.counters[index as usize]
                && (carry >> c) & 1 == 1
            {
                passed.push(index);
            }
        }
        passed
    }
}
