//! Which calls that change a thread's sets are refused. For each call its checks stand in their order, each with its code; the
//! first that holds refuses.
ghost use Rattle.std.specs.Prelude.{◌≡◌, ℕ, ◌==◌, Bool, length, map, is_none, is_some, not, None, false};
ghost use Rattle.std.specs.Option.{option_copied, option_map};
ghost use Rattle.std.specs.List.{list_all, list_any};
ghost use Rattle.event_sets.specs.AtRest.{Widths};
ghost use Rattle.event_sets.specs.declared.refusal.Refusal.TheVariants.{Plain};
ghost use Rattle.session_model.specs.Faces.{at, component_runs, has, is_absent, is_running, runs, runs_on};
ghost use Rattle.session_model.specs.Refusals.{first_of, has_events, row};
ghost use Rattle.call_type.specs.declared.call.Call.TheVariants as call;
ghost use Rattle.thread_core.specs.Refusing.{IsRefusedWith, IsThere, first_code, rest_code, slot_faces};
ghost use Rattle.thread_slots.specs.Altering.{code_before};
ghost use Rattle.thread_slots.specs.Slots.{face_of_slot};

use crate::thread::Core;
use papi_base::Code;
use thread_slots::{Change, Slot, lacks_component};

/// The set under the number.
#[inline]
pub(crate) fn set_under(slots: &[Option<Slot>], set: u32) -> Option<&Slot>
    ensures set { option_copied result ≡ at slots.now set }
    ensures face { option_map (λ s. face_of_slot s.now) result ≡ at (slot_faces slots.now) set }
{
    match slots.get(set as usize) {
        Some(place) => place.as_ref(),
        None => None,
    }
}

/// Whether there is no set under the number.
pub(crate) fn is_absent(slots: &[Option<Slot>], set: u32) -> bool
    ensures absent { result ≡ is_absent (slot_faces slots.now) set }
    ensures there { result ≡ false → IsThere slots.now set }
{
    set_under(slots, set).is_none()
}

/// Whether the set under the number runs.
pub(crate) fn runs(slots: &[Option<Slot>], set: u32) -> bool
    ensures { result ≡ runs (slot_faces slots.now) set }
{
    matches!(set_under(slots, set), Some(slot) if slot.is_running())
}

/// Whether the set under the number has events.
fn has_events(slots: &[Option<Slot>], set: u32) -> bool
    ensures { result ≡ has has_events (slot_faces slots.now) set }
{
    matches!(set_under(slots, set), Some(slot) if slot.set.events().len() != 0)
}

/// Whether there is a set under the number, and it has no events.
fn lacks_events(slots: &[Option<Slot>], set: u32) -> bool
    ensures { result ≡ has (λ s. not (has_events s)) (slot_faces slots.now) set }
{
    matches!(set_under(slots, set), Some(slot) if slot.set.events().len() == 0)
}

/// Whether what is in a place is a set that runs on the component.
pub(crate) fn runs_on(component: Option<u32>, place: &Option<Slot>) -> bool
    ensures { result ≡ runs_on component (option_map face_of_slot place.now) }
{
    match (component, place) {
        (Some(comp), Some(slot)) => slot.is_running() && slot.set.component() == Some(comp),
        _ => false,
    }
}

/// Whether some set runs on the component.
fn some_runs(slots: &[Option<Slot>], component: Option<u32>) -> bool
    ensures { result ≡ list_any (runs_on component) (slot_faces slots.now) }
{
    for place in slots {
        if runs_on(component, place) {
            return true;
        }
    }
    false
}

/// Whether some set runs on the component of the set under the number.
fn component_runs(slots: &[Option<Slot>], set: u32) -> bool
    ensures { result ≡ component_runs (slot_faces slots.now) set }
{
    matches!(set_under(slots, set), Some(slot) if some_runs(slots, slot.set.component()))
}

/// Whether some set runs.
fn some_is_running(slots: &[Option<Slot>]) -> bool
    ensures { result ≡ list_any is_running (slot_faces slots.now) }
{
    for place in slots {
        if matches!(place, Some(slot) if slot.is_running()) {
            return true;
        }
    }
    false
}

/// Whether there is a set in each place.
fn all_taken(slots: &[Option<Slot>]) -> bool
    ensures { result ≡ list_all (λ place. is_some place) (slot_faces slots.now) }
{
    for place in slots {
        if place.is_none() {
            return false;
        }
    }
    true
}

/// The code of the first check that holds.
#[inline]
fn first_of(checks: &[(bool, Code)]) -> Option<Code>
    ensures code { result ≡ first_code checks.now }
    ensures refusal { option_map Plain result
        ≡ first_of (map (λ check. row check.0 check.1) checks.now) }
{
    for check in checks {
        if check.0 {
            return Some(check.1);
        }
    }
    None
}

impl Core {
    /// `unregister`.
    pub(crate) fn unregister_refusal(&self) -> Option<Code>
        ensures { IsRefusedWith self.now call.Unregister result }
    {
        first_of(&[
            (some_is_running(&self.slots), Code::Eisrun),
            (!self.registered, Code::Einval),
        ])
    }

    /// `create`.
    pub(crate) fn create_refusal(&self) -> Option<Code>
        ensures { IsRefusedWith self.now call.Create result }
    {
        first_of(&[(all_taken(&self.slots), Code::Ecount)])
    }

    /// `destroy`.
    pub(crate) fn destroy_refusal(&self, set: u32) -> Option<Code>
        ensures refused { IsRefusedWith self.now (call.Destroy set) result }
        ensures there { result ≡ None → IsThere self.now.slots set }
    {
        first_of(&[
            (is_absent(&self.slots, set), Code::Enoevst),
            (runs(&self.slots, set), Code::Eisrun),
            (has_events(&self.slots, set), Code::Einval),
        ])
    }

    /// `add`, before the event and the set at rest are looked at.
    pub(crate) fn add_refusal(&self, set: u32) -> Option<Code>
        ensures code { result ≡ rest_code (slot_faces self.now.slots) set }
        ensures there { result ≡ None → IsThere self.now.slots set }
    {
        first_of(&[
            (is_absent(&self.slots, set), Code::Enoevst),
            (runs(&self.slots, set), Code::Eisrun),
        ])
    }

    /// The other changes of a set at rest, before the set is asked.
    pub(crate) fn change_refusal(&self, set: u32, change: &Change) -> Option<Code>
        ensures code { result
            ≡ code_before self.now.shape (slot_faces self.now.slots) set change.now }
        ensures there { result ≡ None → IsThere self.now.slots set }
    {
        first_of(&[
            (is_absent(&self.slots, set), Code::Enoevst),
            (lacks_component(&self.shape, change), Code::Enocmp),
            (runs(&self.slots, set), Code::Eisrun),
        ])
    }

    /// `start`.
    pub(crate) fn start_refusal(&self, set: u32) -> Option<Code>
        ensures refused { IsRefusedWith self.now (call.Start set) result }
        ensures there { result ≡ None → IsThere self.now.slots set }
    {
        first_of(&[
            (is_absent(&self.slots, set), Code::Enoevst),
            (runs(&self.slots, set), Code::Eisrun),
            (component_runs(&self.slots, set), Code::Eisrun),
            (lacks_events(&self.slots, set), Code::Einval),
        ])
    }

    /// `stop`.
    pub(crate) fn stop_refusal(&self, set: u32) -> Option<Code>
        ensures refused { IsRefusedWith self.now (call.Stop set) result }
        ensures there { result ≡ None → IsThere self.now.slots set }
    {
        first_of(&[
            (is_absent(&self.slots, set), Code::Enoevst),
            (!runs(&self.slots, set), Code::Enotrun),
        ])
    }

    /// `accum` and `reset`.
    #[inline]
    pub(crate) fn zero_refusal(&self, set: u32) -> Option<Code>
        ensures refused { IsRefusedWith self.now (call.Reset set) result }
        ensures there { result ≡ None → IsThere self.now.slots set }
    {
        first_of(&[(is_absent(&self.slots, set), Code::Enoevst)])
    }
}
