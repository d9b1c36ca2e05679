//! How much a unit file may have, beside the components of a unit and the counters of a component (papi_base).

/// The events of a component.
pub const MOST_COMPONENT_EVENTS: usize = 1024;

/// The umasks of an event.
pub const MOST_UMASKS: usize = 16;

/// How many characters a description has at most.
pub const LONGEST_DESCRIPTION: usize = 200;
