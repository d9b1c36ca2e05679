//! A thread's session: its event sets, and the stream of the occurrences that they count.
#![tactic(auto)]

mod answers;
mod calls;
mod delivery;
mod filling;
mod happening;
mod keeping;
mod running;
pub mod session;

pub use filling::{Filled, MOST_PASSED};
pub use happening::{Halt, Happened, Happening};
pub use session::Session;
pub use session_model::{Assigned, Body, Call, Ended, Named, Ran, Reply};
pub use thread_core::{Core, Taken};
