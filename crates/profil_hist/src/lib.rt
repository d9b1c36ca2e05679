//! Histograms of program counters after PAPI_profil(3): maps of ranges, and how often each bucket was met.
#![tactic(auto)]

mod adding;
mod cause;
mod counts;
mod fault;
mod hist;
mod limits;
mod map;
mod placing;
mod profile;
mod range;
mod reading;
mod row;

pub use crate::fault::{MapCause, MapFault, cause_text};
pub use crate::hist::Hist;
pub use crate::limits::{MOST_BUCKET_ADDRESSES, MOST_BUCKETS, MOST_RANGES};
pub use crate::map::Map;
pub use crate::profile::profile_text;
pub use crate::range::MapRange;
pub use crate::reading::read_map;
