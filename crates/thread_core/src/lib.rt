//! One thread's event sets, what is counted for them on the unit, and the calls on them.
#![tactic(auto)]

pub use laws::register_laws;
pub use thread::Core;
pub use thread_slots::{Pin, Slot, Taken};

mod calls;
mod laws;
mod refusal;
pub mod running_sets;
pub mod thread;
