//! Lists of replies that take little memory: a reply has a head of one size, and its values, events and counters stand in lists
//! that all replies share.
#![tactic(auto)]

pub mod events;
mod keeping;
pub mod kept;
mod pushing;
mod reading;
pub mod replies;
pub mod shown;

pub use events::EventList;
pub use replies::Replies;
pub use shown::Shown;
