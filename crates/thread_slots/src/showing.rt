//! What calls show of a set (PAPI_read(3), PAPI_state(3)).
ghost use Rattle.std.specs.Prelude.{◌≡◌, None, length};
ghost use Rattle.event_sets.specs.Assigning.{counters_for};
ghost use Rattle.session_model.specs.Replies.{state_bits};
ghost use Rattle.thread_slots.specs.Numbers.{AreGiven};
ghost use Rattle.thread_slots.specs.Shown.{IsTellable, values_shown};
ghost use Rattle.thread_slots.specs.Slots.{is_counting};

use crate::event_places::EventPlaces;
use crate::numbers::Numbers;
use crate::slot::{Counting, Slot};
use crate::values::{values_of, write_values};
use counter_unit::Unit;
use papi_base::bits::state_of;
use papi_base::{Places, Values};
use postfix_rules::PresetBook;
use session_model::Assigned;

impl Slot {
    /// Writes the values of its events at this time, in ticks: PAPI_read(3).
    pub fn read(&self, units: &[Unit], book: &PresetBook, time: u64, into: &mut Values)
        requires { IsTellable book.now units.now time self.now }
        ensures { into.new ≡ values_shown book.now units.now time self.now }
    {
        if let Counting::OnUnit { pins, places, .. } = &self.counting {
            if let Some(comp) = self.set.component() {
                let counted = Numbers::Counted(&units[comp as usize], pins);
                values_of(book, &self.set, places.all(), counted, into);
                return;
            }
        }
        let numbers = self.numbers(units, time);
        let places = EventPlaces::of(book, &self.set);
        let listed = Numbers::Listed(&numbers);
        values_of(book, &self.set, places.all(), listed, into);
    }

    /// Writes the same into the first places of an array, as far as there is room, and gives their number: PAPI_read(3).
    pub fn read_into(&self, units: &[Unit], book: &PresetBook, time: u64, out: &mut [i64]) -> u32
        requires { IsTellable book.now units.now time self.now }
        ensures count { result ≡ length (values_shown book.now units.now time self.now) }
        ensures given { let values = values_shown book.now units.now time self.now
            in AreGiven values out.old out.new }
    {
        let count = self.set.events().len();
        if let Counting::OnUnit { pins, places, .. } = &self.counting {
            if let Some(comp) = self.set.component() {
                let counted = Numbers::Counted(&units[comp as usize], pins);
                write_values(book, &self.set, places.all(), counted, out);
                return count;
            }
        }
        let numbers = self.numbers(units, time);
        let places = EventPlaces::of(book, &self.set);
        let listed = Numbers::Listed(&numbers);
        write_values(book, &self.set, places.all(), listed, out);
        count
    }

    /// The bits of its state: PAPI_state(3).
    pub fn state(&self) -> u32
        ensures { result ≡ state_bits (is_counting self.now.counting) self.now.set.rest }
    {
        let multiplexed = self.set.slice().is_some();
        u32::from(state_of(self.is_running(), self.set.is_armed(), multiplexed).0)
    }

    /// Its native events, each with its counter, if they do not take turns.
    pub fn assigned(&self) -> Assigned
        ensures { self.now.set.rest.slice ≡ None
            → result ≡ record {
              natives = self.now.set.natives;
              counters = counters_for self.now.set.natives;
            } }
    {
        Assigned {
            natives: self.set.natives().copy(),
            counters: self.set.assignment().unwrap_or(Places::new()),
        }
    }
}
