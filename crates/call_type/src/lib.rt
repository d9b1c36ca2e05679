//! The calls that a script makes of sessions: their names, and the calls, whatever is known of their events: a text, and then
//! what it was looked up as.
#![tactic(auto)]

pub mod call;
pub mod call_name;

pub use call::{Asked, Call};
pub use call_name::{CallName, call_word};
