//! Which events can still be added to a set of given events: PAPI's papi_event_chooser(1).

pub mod candidates;
pub mod choice;
mod given;
mod joining;
pub mod laws;
mod listing;
mod native;
mod opening;
mod refused;

pub use candidates::Candidates;
pub use choice::{Choice, choose};
