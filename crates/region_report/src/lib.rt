//! Counts by region of a program, after PAPI's high-level calls (PAPI_hl_region_begin(3)): region scripts, the scripts of calls that
//! they stand for, and the report of what was read.
#![tactic(auto)]

pub mod fault;
mod line;
mod opened;
mod pairing;
pub mod regions;
pub mod reports;
pub mod script;
mod spans;
mod threads;
mod totals;

pub use fault::{RegionCause, RegionFault, cause_text};
pub use regions::{MOST_LINES, MOST_OPEN_REGIONS, RegionCall, RegionLine, Regions, read_regions};
pub use reports::{Reading, report};
pub use script::script_of;
