//! What `papi_soak` makes out of a number: a unit, a script and the streams of four threads, and the summary of their run.
#![tactic(auto)]

mod generator;
mod limits;
mod line;
mod occurrence;
mod script;
mod source;
mod summary;
mod unit;

pub use generator::Generator;
pub use limits::SOAK_THREADS;
pub use occurrence::Occurrence;
pub use script::script_text;
pub use source::SoakSource;
pub use summary::{ThreadTotal, summary_text};
pub use unit::unit_text;
