//! PAPI's low-level calls for C: `papi_calls` through a handle. `include/kistalub.h` declares what C calls.
#![tactic(auto)]

mod codes;
mod faults;
mod handle;
mod happening;
mod laws;
mod named;
mod numbers;
mod opened;
mod opening;
mod parts;
mod refusals;
mod rows;
mod running;
mod texts;
mod values;
