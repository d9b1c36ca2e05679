//! User events, and their names.

ghost use Rattle.std.specs.Prelude.{◌≡◌, OnOk, codes, map, position, take};
ghost use Rattle.std.specs.List.{list_all};
ghost use Rattle.std.specs.Str.{bytes_eq};
ghost use Rattle.user_events.specs.Events.{event_view};
ghost use Rattle.user_events.specs.Names as Names;
ghost use Rattle.user_events.specs.Steps as Steps;

use preset_csv::Entry;
use std::alloc::{AllocError, Global};

/// How many user events a cpu has at most.
pub const MOST_USER_EVENTS: usize = 256;

/// How many characters the name of a user event has at most.
pub const LONGEST_EVENT_NAME: usize = 32;

/// An event that a user adds to a preset file: its name, and what it is computed of. Source: papi_events.csv.
#[derive(Drop)]
pub struct UserEvent {
    pub name: String,
    pub entry: Entry,
}

fn is_event_byte(b: u8) -> bool
    ensures { result ≡ Names.is_event_byte b }
{
    (48 <= b && b <= 57) || (65 <= b && b <= 90) || (97 <= b && b <= 122) || b == b'_'
}

fn are_event_bytes(name: &[u8]) -> bool
    ensures { result ≡ list_all Names.is_event_byte name.now }
{
    name.iter().all(|&b| is_event_byte(b))
}

// Whether a name of five bytes or more begins as a preset's.
fn begins_as_preset(name: &[u8]) -> bool
    ensures { result ≡ bytes_eq (take 5 name.now) (codes "PAPI_") }
{
    let (front, _rest) = name.split_at(name.len().min(5));
    front == b"PAPI_".as_slice()
}

/// Whether bytes are a name of a user event: 1 to [`LONGEST_EVENT_NAME`] letters, digits and `_`, that do not begin with `PAPI_`.
#[tactic(auto, unfolding(crate::specs::Names::is_event_name))]
pub fn is_event_name(name: &[u8]) -> bool
    ensures { result ≡ Names.is_event_name name.now }
{
    1 <= name.len()
        && name.len() <= LONGEST_EVENT_NAME
        && are_event_bytes(name)
        && !begins_as_preset(name)
}

/// The place of the event of this name, and `None` if there is none.
pub fn place_of(events: &[UserEvent], name: &str) -> Option<usize>
    ensures { result ≡ position (λ e. bytes_eq name.now e.name) (map event_view events.now) }
{
    events.iter().position(|e| name == e.name.as_str())
}

/// Puts an entry to the event of this name, which may be a new one.
pub fn put_event(
    alloc: Global,
    events: &mut Vec<UserEvent>,
    name: &str,
    entry: Entry,
) -> Result<(), AllocError>
    ensures { OnOk result (map event_view events.new.items
        ≡ Steps.put_event (map event_view events.old.items) name.now entry) }
{
    match place_of(events.as_slice(), name) {
        Some(place) => {
            events[place].entry = entry;
            Ok(())
        }
        None => {
            let name = String::from_str(alloc, name)?;
            events.push(UserEvent { name, entry })?;
            Ok(())
        }
    }
}
