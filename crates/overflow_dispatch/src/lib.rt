//! Overflow of counters: which events passed their thresholds, and who is told (PAPI_overflow(3)).
#![tactic(auto)]

pub use handler::{Handler, Note};
pub use passed::Passed;
pub use recorder::Recorder;
pub use since::{count_of, counts_of, note_of, notes_laws, notes_since};
pub use thresholds::Thresholds;

pub mod handler;
pub mod passed;
pub mod recorder;
pub mod since;
pub mod thresholds;
