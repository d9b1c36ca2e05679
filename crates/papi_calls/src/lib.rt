//! PAPI's low-level calls of one thread, for a program that makes them one by one: a unit's catalog, the codes of the native
//! events that were mentioned, and the thread's session. Calls take events by name and by code. `papi_c` gives them to C.
#![tactic(auto)]

mod calls;
mod coded;
mod infos;
pub mod library;
mod named;
mod rows;
mod running;

pub use infos::InfoPart;
pub use library::Library;
pub use rows::{ComponentPart, NativePart};
pub use thread_session::{Filled, Halt, Happened, Happening};
