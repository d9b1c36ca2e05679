//! What the calls on one thread's event sets mean: the calls, what they reply, and the definitions of both on an account
//! that keeps every occurrence which the thread consumed. The laws of these definitions are contracts of functions that do nothing.
#![tactic(auto)]

pub mod call;
pub mod keeping;
pub mod line;
pub mod reply;
pub mod turning;
pub mod worlds;

pub use call::{Call, Named};
pub use keeping::{agreement_laws, fit_laws, place_laws, window_laws};
pub use line::{Asked, Line};
pub use reply::{Assigned, Body, Ended, Ran, Reply};
pub use turning::turn_laws;
pub use worlds::{merge_laws, world_laws};
