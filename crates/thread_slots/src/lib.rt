//! Event sets under their numbers, what is kept of each, and what starts, counts, shows and stops them on the units of their
//! components.
#![tactic(auto)]

pub use changing::{Change, lacks_component};
pub use counting::{Taken, count_all};
pub use event_places::EventPlaces;
pub use pins::Pin;
pub use slot::{Counting, Slot, empty_places, free_number};

mod accumulating;
pub mod changing;
pub mod counting;
pub mod event_places;
mod measuring;
mod numbers;
pub mod pins;
mod places;
mod raw_reading;
mod showing;
pub mod slot;
mod starting;
mod stopping;
pub mod values;
mod zeroing;
