//! Native events on counters.

use papi_base::{Native, ShortList};

/// A native event on its counter, with the threshold that an event of the set has on it, or 0 for none.
#[derive(Clone, Copy, Default)]
pub struct Pin {
    pub native: Native,
    pub counter: u32,
    pub threshold: u64,
}

/// At most as many pins as a set has native events.
pub type Pins = ShortList<Pin>;
