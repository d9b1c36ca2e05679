//! Equal events and native events.
ghost use Rattle.std.specs.Prelude.{◌≡◌, ◌<◌, IfSome, is_some, length};
ghost use Rattle.std.specs.List.{list_any, position_or_len};
ghost use Rattle.postfix_rules.specs.Sameness.{among, same_event, same_native};

use papi_base::{EventRef, Events, Native, Natives};

/// Whether two native events are equal in all fields.
pub fn is_same(m: &Native, n: &Native) -> bool
    ensures { result ≡ same_native m.now n.now }
{
    m == n
}

/// Whether two events are equal.
pub fn is_same_event(e: &EventRef, f: &EventRef) -> bool
    ensures { result ≡ same_event e.now f.now }
{
    e == f
}

/// Whether the native event is in the list.
pub fn has_native(natives: &Natives, n: &Native) -> bool
    ensures { result ≡ among n.now natives.now }
{
    for i in 0..natives.len() {
        if is_same(n, &natives.at(i)) {
            return true;
        }
    }
    false
}

/// The place of the event in the list.
pub fn place_of(events: &Events, e: &EventRef) -> Option<u32>
    ensures there { is_some result ≡ list_any (same_event e.now) events.now }
    ensures first { IfSome result (λ place. place ≡ position_or_len (same_event e.now) events.now) }
    ensures within { IfSome result (λ place. place < length events.now) }
{
    for i in 0..events.len() {
        if is_same_event(e, &events.at(i)) {
            return Some(i);
        }
    }
    None
}

/// Whether the event is in the list.
pub fn has_event(events: &Events, e: &EventRef) -> bool
    ensures { result ≡ list_any (same_event e.now) events.now }
{
    place_of(events, e).is_some()
}
