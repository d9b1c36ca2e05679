//! Native events that an event would bring to a set.

ghost use Rattle.std.specs.Prelude.{◌≡◌, ◌++◌, ◌≤◌, length, take};
ghost use Rattle.counter_alloc.specs.Masks.{masks_of};
ghost use Rattle.postfix_rules.specs.Sameness.{among, joined_by};

use event_sets::has_native;
use papi_base::{MOST_SET_NATIVES, Native, Natives};

// Whether the native event is in one of two lists.
fn has_either(natives: &Natives, further: &Natives, n: &Native) -> bool
    ensures { result ≡ among n.now (natives.now ++ further.now) }
{
    has_native(natives, n) || has_native(further, n)
}

/// Those of `more` that join the native events, without later repeats.
pub fn joining(natives: &Natives, more: &Natives) -> Natives
    ensures { natives.now ++ result ≡ joined_by natives.now more.now }
{
    let mut further = Natives::new();
    for i in 0..more.len() {
        let n = more.at(i);
        if !has_either(natives, &further, &n) {
            further.push(n);
        }
    }
    further
}

/// The counters that each native event is allowed, as bits.
pub fn masks(natives: &Natives) -> [u32; MOST_SET_NATIVES]
    ensures { take (length natives.now) result ≡ masks_of natives.now }
{
    let mut masks = [0; MOST_SET_NATIVES];
    for i in 0..natives.len() {
        masks[i as usize] = natives.at(i).allowed;
    }
    masks
}
