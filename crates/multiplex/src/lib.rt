//! Groups of native events that take turns on the counters, and estimates of what they would have counted.
#![tactic(auto)]

pub use laws::rotation_laws;
pub use rotation::{Rotation, Span, estimate};

mod laws;
mod rotation;
