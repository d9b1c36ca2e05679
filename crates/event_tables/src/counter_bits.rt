//! Counters by their names, and as bits.

ghost use Rattle.std.specs.Prelude.{◌≡◌, ◌≤◌, length, map, if◌then◌else◌};
ghost use Rattle.table_rows.specs.Texts.{is_empty};
ghost use Rattle.papi_base.specs.declared.limits.TheConstants.{MOST_COUNTERS};
ghost use Rattle.event_tables.specs.Lines.{words_of};
ghost use Rattle.event_tables.specs.Unit as Unit;
ghost use Rattle.event_tables.specs.Views.{counter_text};

use crate::component::Counter;

/// The place of a counter, by its exact name.
pub fn counter_place(counters: &[Counter], name: &[u8]) -> Option<usize>
    ensures { result ≡ Unit.counter_place (map counter_text counters.now) name.now }
{
    counters.iter().position(|k| k.name.as_bytes() == name)
}

// A counter of this name as a bit, and 0 if there is none and if there is no name.
fn counter_bit(counters: &[Counter], name: &[u8]) -> u32
    requires { length counters.now ≤ MOST_COUNTERS }
    ensures { result ≡ (if is_empty name.now then 0
        else Unit.place_bit (Unit.counter_place (map counter_text counters.now) name.now)) }
{
    if name.is_empty() {
        return 0;
    }
    match counter_place(counters, name) {
        Some(place) => 1 << place,
        None => 0,
    }
}

/// The counters of these names, as bits.
pub fn bits_of(counters: &[Counter], names: &[u8]) -> u32
    requires { length counters.now ≤ MOST_COUNTERS }
    ensures { result ≡ Unit.bits_of (map counter_text counters.now) (words_of names.now) }
{
    names
        .split(|&b| b == b' ')
        .fold(0, |bits, name| bits | counter_bit(counters, name))
}
