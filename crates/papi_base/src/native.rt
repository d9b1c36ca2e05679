//! Native events, and what a call names an event by.

/// The modifiers of a native event's name: `u`, `k`, `e`, `i`, and `c`, which is 0 if it is absent. Source: libpfm4(3).
#[derive(Clone, Copy, Debug, Default, PartialEq, Eq, Hash)]
pub struct Mods {
    pub user: bool,
    pub kernel: bool,
    pub edge: bool,
    pub invert: bool,
    pub cmask: u8,
}

/// A native event as a counter is programmed with it.
///
/// `event` is its row in component `comp`, `masks` the chosen umask rows as bits, `umask` the OR of their values, and
/// `allowed` the counters that can count it as bits.
#[derive(Clone, Copy, Debug, Default, PartialEq, Eq, Hash)]
pub struct Native {
    pub comp: u32,
    pub event: u32,
    pub select: u8,
    pub masks: u16,
    pub umask: u8,
    pub mods: Mods,
    pub allowed: u32,
}

/// What a call names: a preset by its row in the preset table, or a native event.
#[derive(Clone, Copy, Debug, PartialEq, Eq)]
pub enum EventRef {
    Preset(u32),
    Native(Native),
}

impl Default for EventRef {
    fn default() -> EventRef {
        EventRef::Preset(0)
    }
}
