//! The presets and user events for one cpu.

use crate::event::UserEvent;
use preset_csv::PresetTable;
use std::marker::Model;

/// The presets for a cpu, and its user events in the order of their ranks: at most [`MOST_USER_EVENTS`](crate::MOST_USER_EVENTS),
/// of names of 1 to 32 letters, digits and `_` that do not begin with `PAPI_`, and that differ pairwise.
#[derive(Drop)]
pub struct Extended {
    presets: PresetTable,
    events: Vec<UserEvent>,
}

impl Model for Extended {
    ghost use Rattle.std.specs.Prelude.{map};
    ghost use Rattle.user_events.specs.Events.{ExtendedView, IsExtended, event_view};

    ghost Value = { ExtendedView };

    ghost view = { λ x. record { presets = x.presets; events = map event_view x.events.items } };

    ghost invariant = { λ x. IsExtended (record { presets = x.presets; events = map event_view x.events.items }) };
}

impl Extended {
    ghost use Rattle.std.specs.Prelude.{◌≡◌, map};
    ghost use Rattle.user_events.specs.Events.{IsExtended, event_view};

    /// These presets and user events.
    pub fn new(presets: PresetTable, events: Vec<UserEvent>) -> Extended
        requires { IsExtended (record { presets = presets; events = map event_view events.items }) }
        ensures { result ≡ record { presets = presets; events = map event_view events.items } }
    {
        Extended { presets, events }
    }

    /// The presets.
    pub fn presets(&self) -> &PresetTable
        ensures presets { result.now ≡ self.now.presets }
        ensures kept { IsExtended self.now }
    {
        &self.presets
    }

    /// The user events.
    pub fn events(&self) -> &[UserEvent]
        ensures events { map event_view result.now ≡ self.now.events }
        ensures kept { IsExtended self.now }
    {
        self.events.as_slice()
    }

    /// The presets and the user events, taken out.
    pub fn into_parts(self) -> (PresetTable, Vec<UserEvent>)
        ensures presets { result.0 ≡ self.presets }
        ensures events { map event_view result.1.items ≡ self.events }
        ensures kept { IsExtended self }
    {
        (self.presets, self.events)
    }
}
