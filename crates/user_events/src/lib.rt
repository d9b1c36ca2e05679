//! Preset files with user events: events of a user's own beside the presets, and formulas in infix order. Source: PAPI's
//! papi_events.csv.
#![tactic(auto)]

mod event;
mod extended;
mod judging;
pub mod laws;
mod reading;
mod writing;

pub use crate::event::{LONGEST_EVENT_NAME, MOST_USER_EVENTS, UserEvent};
pub use crate::extended::Extended;
pub use crate::reading::read_extended;
pub use crate::writing::write_extended;
