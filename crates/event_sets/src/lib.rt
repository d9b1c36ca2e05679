//! Event sets that do not run: what they hold, which calls they refuse, and what the calls change.
#![tactic(auto)]

mod clashes;
pub mod event_set;
mod joining;
pub mod laws;
pub mod refusal;
mod removal;
mod sameness;
mod thresholds;

pub use event_set::EventSet;
pub use joining::natives_of;
pub use refusal::{Clash, Refusal};
pub use sameness::{has_event, has_native, is_same};
pub use thresholds::leads;
