//! Event sets that do not run.
ghost use Rattle.std.specs.Prelude.{◌≡◌, false, true, ◌<◌, ◌≤◌, ◌↔◌, if◌then◌else◌, [], All, IfErr, IfSome, IsNone, IsSome};
ghost use Rattle.std.specs.Prelude.{OnErr, OnOk, None, Some, is_some, length, slice_index};
ghost use Rattle.papi_base.specs.declared.code.Code.TheVariants.{Einval};
ghost use Rattle.papi_base.specs.declared.limits.TheConstants.{MOST_COUNTERS};
ghost use Rattle.counter_alloc.specs.Listing.{least};
ghost use Rattle.counter_alloc.specs.Masks.{masks_of};
ghost use Rattle.postfix_rules.specs.Presets.{natives_of_event};
ghost use Rattle.event_sets.specs.Adding.{add_refusal};
ghost use Rattle.postfix_rules.specs.Fitting.{Fits, IsHeld};
ghost use Rattle.event_sets.specs.AtRest.{emptied, has_event as has_event_in, is_armed, is_bad_domain, is_other, new_set};
ghost use Rattle.event_sets.specs.AtRest.{set_natives, widths_at, with_event, with_threshold, without_event};
ghost use Rattle.event_sets.specs.Changing.{assign_refusal, multiplex_refusal, threshold_refusal};
ghost use Rattle.event_sets.specs.Sets.{IsSound, SetView, set_view};

use crate::Refusal;
use crate::clashes::clash;
use crate::joining::{joined, natives_of, natives_of_all};
use crate::removal::{matched, without};
use crate::sameness::{has_event, place_of};
use crate::thresholds::{is_armed, is_bad_threshold, is_plain, shares_native};
use counter_alloc::Matching;
use papi_base::{
    Code, Counts, Domain, EventRef, Events, LONGEST_SLICE, MOST_SET_EVENTS, Natives, Places, Shape,
};
use postfix_rules::PresetBook;
use std::marker::Model;

/// An event set that does not run, of at most 32 events that count at most 32 native events: PAPI_create_eventset(3).
///
/// No call takes memory. A refused call changes nothing.
#[derive(Drop)]
pub struct EventSet {
    events: Events,
    /// The threshold of each event, or 0.
    thresholds: Counts,
    component: Option<u32>,
    /// How many counters the component has.
    counters: u32,
    domain: Domain,
    /// The length of a time slice in ticks, if the native events take turns.
    slice: Option<u32>,
    natives: Natives,
    /// The native events on counters of their own, unless they take turns.
    matching: Matching,
}

impl Model for EventSet {
    ghost use Rattle.std.specs.Prelude.{ℕ, ◌≡◌};
    ghost use Rattle.event_sets.specs.Sets.{SetView, IsSound, IsMatched};

    ghost Value = { SetView };

    ghost view = { λ s. record {
      rest = record { events = s.events; thresholds = s.thresholds; component = s.component; domain = s.domain; slice = s.slice };
      natives = s.natives;
      counters = s.counters;
    } };

    ghost invariant = { λ s. let view : SetView = record {
      rest = record { events = s.events; thresholds = s.thresholds; component = s.component; domain = s.domain; slice = s.slice };
      natives = s.natives;
      counters = s.counters;
    } in IsSound view × IsMatched view s.matching };
}

/// Whether a component is fixed that is another one.
fn is_other(fixed: Option<u32>, comp: u32) -> bool
    ensures { result ≡ is_other fixed (Some comp) }
{
    match fixed {
        None => false,
        Some(component) => component != comp,
    }
}

/// How many counters a component has that is there.
fn counters_of(shape: &Shape, comp: u32) -> u32
    requires { comp < length shape.now }
    ensures counted { result ≡ length (widths_at shape.now (Some comp)) }
    ensures few { result ≤ MOST_COUNTERS }
{
    shape.comp(comp).counters()
}

/// The matching to which native events are added: the one that is kept, or a new one if no component was fixed.
fn begun(fixed: Option<u32>, kept: &Matching, counters: u32) -> Matching
    requires { counters ≤ MOST_COUNTERS }
    ensures { result ≡ (if is_some fixed then kept.now
        else record { counters = counters; allowed = [] }) }
{
    match fixed {
        Some(_) => kept.copy(),
        None => Matching::empty(counters),
    }
}

impl EventSet {
    /// A set without events, component or slice, in this domain.
    fn empty(domain: Domain) -> EventSet
        requires { is_bad_domain domain.0 ≡ false }
        ensures { result ≡ record {
          rest = record new_set { domain = domain };
          natives = [];
          counters = 0;
        } }
    {
        EventSet {
            events: Events::new(),
            thresholds: Counts::new(),
            component: None,
            counters: 0,
            domain,
            slice: None,
            natives: Natives::new(),
            matching: Matching::empty(0),
        }
    }

    /// A set without events, component or slice, in the domain of the user.
    pub fn new() -> EventSet
        ensures { result ≡ record { rest = new_set; natives = []; counters = 0 } }
    {
        EventSet::empty(Domain::USER)
    }

    /// Adds an event with threshold 0, and fixes the component to the event's: PAPI_add_event(3).
    ///
    /// EINVAL if the event is of another component or is in the set; ECOUNT if events or native events would be
    /// more than 32; a conflict if the native events with the new ones cannot have counters of their own, or, if
    /// the set is multiplexed, if a new one is allowed no counter.
    pub fn add(&mut self, book: &PresetBook, shape: &Shape, e: &EventRef) -> Result<(), Refusal>
        requires held { IsHeld book.now e.now }
        requires fits { All (Fits shape.now) (natives_of_event book.now e.now) }
        requires natives { self.old.natives ≡ set_natives book.now self.old.rest }
        requires counters { self.old.counters
            ≡ length (widths_at shape.now self.old.rest.component) }
        ensures added { OnOk result
            (self.new ≡ set_view book.now shape.now (with_event book.now e.now self.old.rest)) }
        ensures taken { OnOk result (add_refusal book.now e.now self.old.rest ≡ None) }
        ensures refused { IfErr result (λ r. add_refusal book.now e.now self.old.rest ≡ Some r) }
        ensures unchanged { OnErr result (self.new ≡ self.old) }
    {
        let given = natives_of(book, e);
        let comp = given.at(0).comp;
        if is_other(self.component, comp) || has_event(&self.events, e) {
            return Err(Refusal::Plain(Code::Einval));
        }
        if self.events.len() >= MOST_SET_EVENTS as u32 {
            return Err(Refusal::Plain(Code::Ecount));
        }
        let Some(natives) = joined(&self.natives, &given) else {
            return Err(Refusal::Plain(Code::Ecount));
        };
        let counters = counters_of(shape, comp);
        let mut matching = begun(self.component, &self.matching, counters);
        if let Some(clash) = clash(self.slice, &mut matching, &natives, self.natives.len()) {
            return Err(Refusal::Conflict(clash));
        }
        self.component = Some(comp);
        self.counters = counters;
        self.natives = natives;
        self.matching = matching;
        self.events.push(*e);
        self.thresholds.push(0);
        Ok(())
    }

    /// Takes an event away, with its threshold and the native events that no other event has: PAPI_remove_event(3).
    ///
    /// EINVAL if the event is not in the set.
    pub fn remove(&mut self, book: &PresetBook, e: &EventRef) -> Result<(), Code>
        requires natives { self.old.natives ≡ set_natives book.now self.old.rest }
        ensures removed { let rest = without_event e.now self.old.rest
            in OnOk result (self.new
            ≡ record self.old { rest = rest; natives = set_natives book.now rest }) }
        ensures taken { OnOk result (has_event_in e.now self.old.rest ≡ true) }
        ensures refused { IfErr result (λ c. c ≡ Einval) }
        ensures absent { OnErr result (has_event_in e.now self.old.rest ≡ false) }
        ensures unchanged { OnErr result (self.new ≡ self.old) }
    {
        let Some(place) = place_of(&self.events, e) else {
            return Err(Code::Einval);
        };
        let events = without(&self.events, place);
        let natives = natives_of_all(book, &events);
        self.matching = matched(self.slice, self.counters, &natives);
        self.thresholds = without(&self.thresholds, place);
        self.events = events;
        self.natives = natives;
        Ok(())
    }

    /// Takes away all events, the slice and the component: PAPI_cleanup_eventset(3). The domain stays.
    pub fn cleanup(&mut self)
        ensures { self.new ≡ record { rest = emptied self.old.rest; natives = []; counters = 0 } }
    {
        *self = EventSet::empty(self.domain);
    }

    /// Fixes the domain in which the native events without a privilege modifier count: PAPI_set_domain(3).
    ///
    /// EINVAL if the bits are 0 or have another one than 1 for the user and 2 for the kernel.
    pub fn set_domain(&mut self, bits: u32) -> Result<(), Code>
        ensures set { OnOk result
            (self.new ≡ record self.old {
              rest = record
                  self.old.rest { domain = record { 0 = bits } };
            }) }
        ensures good { OnOk result (is_bad_domain bits ≡ false) }
        ensures refused { IfErr result (λ c. (c ≡ Einval) × (is_bad_domain bits ≡ true)) }
        ensures unchanged { OnErr result (self.new ≡ self.old) }
    {
        if bits == 0 || bits > 3 {
            return Err(Code::Einval);
        }
        self.domain = Domain(bits as u8);
        Ok(())
    }

    /// Has the native events take turns, each for a slice of n ticks: PAPI_set_multiplex(3).
    ///
    /// EINVAL if the slice is not from 1 to 1,000,000 ticks, else ECOMBO if an event has a threshold.
    pub fn set_multiplex(&mut self, slice: u32) -> Result<(), Code>
        ensures set { OnOk result
            (self.new ≡ record self.old { rest = record self.old.rest { slice = Some slice } }) }
        ensures taken { OnOk result (multiplex_refusal slice self.old.rest ≡ None) }
        ensures refused { IfErr result (λ c. multiplex_refusal slice self.old.rest ≡ Some c) }
        ensures unchanged { OnErr result (self.new ≡ self.old) }
    {
        if slice == 0 || slice > LONGEST_SLICE {
            return Err(Code::Einval);
        }
        if is_armed(&self.thresholds) {
            return Err(Code::Ecombo);
        }
        self.slice = Some(slice);
        Ok(())
    }

    /// Fixes the component: PAPI_assign_eventset_component(3).
    ///
    /// ENOCMP if there is no such component, else EINVAL if another one is fixed.
    pub fn assign_component(&mut self, comp: u32, shape: &Shape) -> Result<(), Code>
        requires counters { self.old.counters
            ≡ length (widths_at shape.now self.old.rest.component) }
        ensures set { let rest = record self.old.rest { component = Some comp }
            in OnOk result (self.new
            ≡ record self.old {
              rest = rest;
              counters = length (widths_at shape.now (Some comp));
            }) }
        ensures taken { OnOk result (assign_refusal shape.now comp self.old.rest ≡ None) }
        ensures refused { IfErr result (λ c. assign_refusal shape.now comp self.old.rest ≡ Some c) }
        ensures unchanged { OnErr result (self.new ≡ self.old) }
    {
        if comp >= shape.comps() {
            return Err(Code::Enocmp);
        }
        if is_other(self.component, comp) {
            return Err(Code::Einval);
        }
        let counters = counters_of(shape, comp);
        self.matching = begun(self.component, &self.matching, counters);
        self.component = Some(comp);
        self.counters = counters;
        Ok(())
    }

    /// Gives an event of the set a threshold, or with 0 takes its threshold away: PAPI_overflow(3).
    ///
    /// EINVAL if the event is not in the set or is derived; if the threshold is neither 0 nor from 256 to the last
    /// value of each register of the component; and if another event has a threshold on the same native event. Else
    /// ECOMBO if the native events take turns.
    pub fn set_threshold(
        &mut self,
        book: &PresetBook,
        shape: &Shape,
        e: &EventRef,
        t: u64,
    ) -> Result<(), Code>
        ensures set { OnOk result
            (self.new ≡ record self.old { rest = with_threshold e.now t self.old.rest }) }
        ensures taken { OnOk result
            (threshold_refusal book.now shape.now e.now t self.old.rest ≡ None) }
        ensures refused { IfErr result
            (λ c. threshold_refusal book.now shape.now e.now t self.old.rest ≡ Some c) }
        ensures unchanged { OnErr result (self.new ≡ self.old) }
    {
        let Some(place) = place_of(&self.events, e) else {
            return Err(Code::Einval);
        };
        if !is_plain(book, e)
            || is_bad_threshold(self, shape, t)
            || shares_native(book, self, e, t)
        {
            return Err(Code::Einval);
        }
        if self.slice.is_some() {
            return Err(Code::Ecombo);
        }
        self.thresholds.put(place, t);
        Ok(())
    }

    /// The native events of the set's events in order, without later repeats.
    pub fn natives(&self) -> &Natives
        ensures natives { result.now ≡ self.now.natives }
        ensures sound { IsSound self.now }
    {
        &self.natives
    }

    /// The events in the order in which they were added.
    pub fn events(&self) -> &Events
        ensures events { result.now ≡ self.now.rest.events }
        ensures sound { IsSound self.now }
    {
        &self.events
    }

    /// The component, if it is fixed.
    pub fn component(&self) -> Option<u32>
        ensures { result ≡ self.now.rest.component }
    {
        self.component
    }

    /// The domain in which the native events without a privilege modifier count: PAPI_set_domain(3).
    pub fn domain(&self) -> Domain
        ensures { result ≡ self.now.rest.domain }
    {
        self.domain
    }

    /// The length of a time slice in ticks, if the native events take turns: PAPI_set_multiplex(3).
    pub fn slice(&self) -> Option<u32>
        ensures { result ≡ self.now.rest.slice }
    {
        self.slice
    }

    /// The threshold of the event at an index, or 0: PAPI_overflow(3).
    pub fn threshold(&self, index: u32) -> u64
        requires { index < length self.now.rest.events }
        ensures { result ≡ slice_index self.now.rest.thresholds index }
    {
        self.thresholds.at(index)
    }

    /// Whether some event of the set has a threshold: PAPI_overflow(3).
    pub fn is_armed(&self) -> bool
        ensures { result ≡ is_armed self.now.rest }
    {
        is_armed(&self.thresholds)
    }

    /// The counter of each native event in the assignment that comes first, compared place by place; none if the set
    /// is multiplexed.
    pub fn assignment(&self) -> Option<Places>
        ensures multiplexed { IsNone result ↔ IsSome self.now.rest.slice }
        ensures least { IfSome result (λ places. least (masks_of self.now.natives) ≡ Some places) }
    {
        if self.slice.is_some() {
            return None;
        }
        Some(self.matching.least())
    }
}
