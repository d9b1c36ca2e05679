//! The catalog of events: what an event's text names, what an event is called, and the codes of events.
#![tactic(auto)]

pub mod catalog;
mod derivation;
pub mod laws;
mod looking_up;
pub mod native_codes;

pub use catalog::Catalog;
pub use derivation::kind_of;
pub use native_codes::{MOST_MENTIONED, NativeCodes};
