//! Where the native events of each event of a set stand among those of the set.
ghost use Rattle.std.specs.Prelude.{◌≡◌, ◌+◌, ◌<◌, ◌≤◌, [], ◌∷◌, ◌++◌, length, map};
ghost use Rattle.std.specs.List.{position_or_len};
ghost use Rattle.postfix_rules.specs.Sameness.{same_native};
ghost use Rattle.postfix_rules.specs.declared.derived.TheConstants.{MOST_NATIVES};
ghost use Rattle.thread_slots.specs.FirstPlaces.{AreFirst};
ghost use Rattle.thread_slots.specs.EventPlaces.{places_of, places_of_event};
ghost use Rattle.thread_slots.specs.declared.event_places.TheConstants.{MOST_PLACES};

use crate::places::FirstPlaces;
use event_sets::EventSet;
use papi_base::{EventRef, Native, Natives};
use postfix_rules::PresetBook;
use std::marker::Model;

/// How many native events the events of a set have at most, if those that several have are counted for each.
pub const MOST_PLACES: usize = 256;

/// The places of the native events of each event of a set, one event after the other. Contracts see the list of them.
#[derive(Drop)]
pub struct EventPlaces {
    items: [u8; MOST_PLACES],
    count: u32,
}

impl Model for EventPlaces {
    ghost use Rattle.std.specs.Prelude.{List, ℕ, take, ◌≤◌};
    ghost use Rattle.thread_slots.specs.declared.event_places.TheConstants.{MOST_PLACES};

    ghost Value = { List ℕ };

    ghost view = { λ s. take s.count s.items };

    ghost invariant = { λ s. s.count ≤ MOST_PLACES };
}

impl EventPlaces {
    /// No places.
    fn new() -> EventPlaces
        ensures { result ≡ [] }
    {
        EventPlaces {
            items: [0; MOST_PLACES],
            count: 0,
        }
    }

    /// One place more.
    fn push(&mut self, place: u8)
        requires { length self.old < MOST_PLACES }
        ensures { self.new ≡ self.old ++ place ∷ [] }
    {
        self.items[self.count as usize] = place;
        self.count += 1;
    }

    /// The place of this native event more.
    fn push_native(&mut self, first: &FirstPlaces, natives: &Natives, n: &Native)
        requires first { AreFirst first.now.first natives.now }
        requires room { length self.old < MOST_PLACES }
        ensures { self.new ≡ self.old ++ position_or_len (same_native n.now) natives.now ∷ [] }
    {
        // A list has at most 32 of them.
        let _few = natives.len();
        let place = first.place_of(natives, n);
        self.push(place as u8);
    }

    /// The places of these native events more.
    fn push_all(&mut self, first: &FirstPlaces, natives: &Natives, own: &Natives)
        requires first { AreFirst first.now.first natives.now }
        requires room { length self.old + length own.now ≤ MOST_PLACES }
        ensures { self.new
            ≡ self.old ++ map (λ n. position_or_len (same_native n) natives.now) own.now }
    {
        for i in 0..own.len() {
            self.push_native(first, natives, &own.at(i));
        }
    }

    /// The places of the native events of one event more.
    fn push_event(
        &mut self,
        book: &PresetBook,
        first: &FirstPlaces,
        natives: &Natives,
        e: &EventRef,
    )
        requires first { AreFirst first.now.first natives.now }
        requires room { length self.old + MOST_NATIVES ≤ MOST_PLACES }
        ensures places { self.new ≡ self.old ++ places_of_event book.now natives.now e.now }
        ensures few { length self.new ≤ length self.old + MOST_NATIVES }
    {
        match e {
            EventRef::Native(n) => self.push_native(first, natives, n),
            EventRef::Preset(row) => {
                if let Some(derived) = book.get(*row) {
                    self.push_all(first, natives, derived.natives());
                }
            }
        }
    }

    /// Those of the events of a set.
    pub(crate) fn of(book: &PresetBook, set: &EventSet) -> EventPlaces
        ensures { result ≡ places_of book.now set.now.natives set.now.rest.events }
    {
        let mut places = EventPlaces::new();
        let events = set.events();
        let natives = set.natives();
        let first = FirstPlaces::of(natives);
        for i in 0..events.len() {
            places.push_event(book, &first, natives, &events.at(i));
        }
        places
    }

    /// All of them.
    pub(crate) fn all(&self) -> &[u8]
        ensures { result.now ≡ self.now }
    {
        &self.items[..self.count as usize]
    }
}
