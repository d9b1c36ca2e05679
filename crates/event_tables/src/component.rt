//! The rows of a unit's tables.

use std::collections::HashMap;

/// A counter: its name, its width from 16 to 48 bits, and whether it is a fixed one.
#[derive(Drop)]
pub struct Counter {
    pub name: String,
    pub width: u8,
    pub fixed: bool,
}

/// The modifiers that a umask fixes: edge, inversion and, unless it is 0, the least amount.
#[derive(Clone, Copy)]
pub struct FixedMods {
    pub edge: bool,
    pub invert: bool,
    pub cmask: u8,
}

/// A umask of an event: its bits, whether it is the event's default, and whether it cannot be combined with another.
///
/// `counters` has, as bits, those of the event's counters that can count it, if not all of them can. `fixed` has the
/// modifiers that it fixes, if it fixes one.
#[derive(Drop)]
pub struct UmaskRow {
    pub name: String,
    pub bits: u8,
    pub preset_choice: bool,
    pub alone: bool,
    pub text: String,
    pub counters: Option<u32>,
    pub fixed: Option<FixedMods>,
}

/// An event: its select code, the counters that can count it as bits, its description, and its umasks.
#[derive(Drop)]
pub struct EventRow {
    pub name: String,
    pub select: u8,
    pub allowed: u32,
    pub text: String,
    pub masks: Vec<UmaskRow>,
}

/// A component: its name, the name of its pmu in libpfm4's sense, its counters and its events.
#[derive(Drop)]
pub struct Component {
    pub name: String,
    pub pmu: String,
    pub counters: Vec<Counter>,
    pub events: Vec<EventRow>,
    // The rows of the events by their names in lower case.
    pub(crate) rows: HashMap<String, u32>,
}
