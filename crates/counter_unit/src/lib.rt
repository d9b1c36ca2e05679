//! The counters of one component: registers of the stated widths, that wrap or overflow at thresholds.
#![tactic(auto)]

pub use laws::counting_laws;
pub use registers::Register;
pub use unit::Unit;

pub mod laws;
mod modes;
pub mod registers;
mod selects;
pub mod unit;
