//! The candidates of a listing.

/// Which events are looked at: native events, each without umasks or with one, or the presets and user events that are available.
/// Source: papi_event_chooser(1).
#[derive(Clone, Copy)]
pub enum Candidates {
    Native,
    Preset,
}
