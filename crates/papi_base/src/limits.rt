//! The limits that several crates keep: docs/FORMATS.md.

/// How many threads there are: their numbers are below this.
pub const THREADS: u32 = 64;

/// How many event sets a thread has at most: their numbers are below this.
pub const MOST_SETS: usize = 64;

/// How many events a set has at most.
pub const MOST_SET_EVENTS: usize = 32;

/// How many native events a set has at most, those of its presets and user events among them.
pub const MOST_SET_NATIVES: usize = 32;

/// How many items a short list has at most: a set's native events, or its events, of which there are at most as many.
pub const MOST_ITEMS: usize = MOST_SET_NATIVES;

/// How many components a unit has at most.
pub const MOST_COMPONENTS: usize = 16;

/// How many counters a component has at most.
pub const MOST_COUNTERS: usize = 32;

/// The bits of the narrowest counter.
pub const LEAST_WIDTH: u8 = 16;

/// The bits of the widest counter.
pub const MOST_WIDTH: u8 = 48;

/// The lowest threshold of an overflow: PAPI_overflow(3).
pub const LEAST_THRESHOLD: u64 = 256;

/// How many ticks a slice of a multiplexed set has at most: PAPI_set_multiplex(3).
pub const LONGEST_SLICE: u32 = 1_000_000;

/// How many occurrences a thread takes at most: as many as there are stamps, from 0 to [`LAST_STAMP`].
pub const MOST_OCCURRENCES: u64 = 4_294_967_295;

/// The greatest amount of an occurrence.
pub const LARGEST_AMOUNT: u8 = 255;

/// The last stamp that an occurrence can have.
pub const LAST_STAMP: u32 = 4_294_967_294;

/// The code of the first native event that is mentioned: PAPI_NATIVE_MASK of papi.h.
pub const FIRST_NATIVE_CODE: u32 = 0x40000000;

/// The code of the first user event. PAPI_event_name_to_code(3) gives codes of events that a user adds above those of the presets.
pub const FIRST_USER_EVENT_CODE: u32 = 0xC0000000;
