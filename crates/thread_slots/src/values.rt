//! The values of a set's events (PAPI_read(3)).
ghost use Rattle.std.specs.Prelude.{◌≡◌, ◌^◌, ◌<◌, ◌≤◌, All, length, map, pos, slice_index, take};
ghost use Rattle.postfix_rules.specs.declared.derived.TheConstants.{MOST_NATIVES};
ghost use Rattle.postfix_rules.specs.Fitting.{IsHeld};
ghost use Rattle.postfix_rules.specs.Presets.{event_value, natives_of_event, rule_of_event};
ghost use Rattle.postfix_rules.specs.Rules.{rule_value};
ghost use Rattle.thread_slots.specs.declared.values.TheConstants.{NUMBER_BITS};
ghost use Rattle.thread_slots.specs.EventPlaces.{places_of};
ghost use Rattle.thread_slots.specs.Numbers.{AreGiven, AreReadable, numbers_at};
ghost use Rattle.thread_slots.specs.Shown.{number_in};

use crate::numbers::{Numbers, number_at};
use event_sets::EventSet;
use papi_base::{EventRef, Values};
use postfix_rules::{MOST_NATIVES, PresetBook, value_of};

/// Each number that a set shows is below 2 to this power, so it is the same as a signed number of 64 bits.
pub const NUMBER_BITS: u32 = 48;

/// The value of an event, and how many native events it has.
#[derive(Clone, Copy)]
struct EventValue {
    value: i64,
    natives: usize,
}

/// The numbers at these places.
#[inline(always)]
fn own_numbers(numbers: Numbers<'_>, places: &[u8]) -> [i64; MOST_NATIVES as usize]
    requires readable { AreReadable numbers }
    requires small { All (λ t. t < 2 ^ NUMBER_BITS) (numbers_at numbers) }
    requires few { length places.now ≤ MOST_NATIVES }
    ensures { take (length places.now) result
        ≡ map (λ p. pos (slice_index (numbers_at numbers.entry) p)) places.now }
{
    let mut counts = [0i64; MOST_NATIVES as usize];
    for i in 0..places.len() {
        counts[i] = number_at(numbers, places[i]) as i64;
    }
    counts
}

/// The value of an event whose native events stand at the first of these places.
#[inline(always)]
fn value_of_event(
    book: &PresetBook,
    numbers: Numbers<'_>,
    places: &[u8],
    e: &EventRef,
) -> EventValue
    requires readable { AreReadable numbers }
    requires small { All (λ t. t < 2 ^ NUMBER_BITS) (numbers_at numbers) }
    requires held { IsHeld book.now e.now }
    requires there { length (natives_of_event book.now e.now) ≤ length places.now }
    ensures natives { result.natives ≡ length (natives_of_event book.now e.now) }
    ensures value { let own = take (length (natives_of_event book.now e.now)) places.now
        in result.value
        ≡ rule_value (rule_of_event book.now e.now)
        (map (λ p. pos (slice_index (numbers_at numbers.entry) p)) own) }
{
    match e {
        EventRef::Native(_) => EventValue {
            value: number_at(numbers, places[0]) as i64,
            natives: 1,
        },
        EventRef::Preset(row) => match book.get(*row) {
            Some(derived) => {
                let natives = derived.natives().len() as usize;
                let counts = own_numbers(numbers, &places[..natives]);
                EventValue {
                    value: value_of(derived.rule(), &counts[..natives]),
                    natives,
                }
            }
            None => EventValue {
                value: 0,
                natives: 0,
            },
        },
    }
}

/// The value of each event of the set, if the places of its native events and the number of each are given.
#[inline(always)]
pub(crate) fn values_of(
    book: &PresetBook,
    set: &EventSet,
    places: &[u8],
    numbers: Numbers<'_>,
    into: &mut Values,
)
    requires places { places.now ≡ places_of book.now set.now.natives set.now.rest.events }
    requires readable { AreReadable numbers }
    requires small { All (λ t. t < 2 ^ NUMBER_BITS) (numbers_at numbers) }
    requires held { All (IsHeld book.now) set.now.rest.events }
    ensures { let number = number_in set.now.natives (numbers_at numbers.entry)
        in into.new ≡ map (event_value book.now number) set.now.rest.events }
{
    *into = Values::new();
    let events = set.events();
    let mut at = 0;
    for i in 0..events.len() {
        let told = value_of_event(book, numbers, &places[at..], &events.at(i));
        into.push(told.value);
        at += told.natives;
    }
}

/// The same into the first places of an array, as far as there is room.
#[inline(always)]
pub(crate) fn write_values(
    book: &PresetBook,
    set: &EventSet,
    places: &[u8],
    numbers: Numbers<'_>,
    out: &mut [i64],
)
    requires places { places.now ≡ places_of book.now set.now.natives set.now.rest.events }
    requires readable { AreReadable numbers }
    requires small { All (λ t. t < 2 ^ NUMBER_BITS) (numbers_at numbers) }
    requires held { All (IsHeld book.now) set.now.rest.events }
    ensures { let number = number_in set.now.natives (numbers_at numbers.entry)
        in AreGiven (map (event_value book.now number) set.now.rest.events) out.old out.new }
{
    let events = set.events();
    let most = out.len().min(events.len() as usize);
    let mut at = 0;
    for i in 0..most {
        let own = value_of_event(book, numbers, &places[at..], &events.at(i as u32));
        out[i] = own.value;
        at += own.natives;
    }
}
