//! Unit files: the components of a machine, their counters, and their events with umasks.
#![tactic(auto)]

mod adding;
mod cause;
mod component;
mod counter_bits;
mod fault;
mod limits;
mod lower_name;
mod row;
mod tables;
mod unit;

pub use crate::component::{Component, Counter, EventRow, FixedMods, UmaskRow};
pub use crate::fault::{RowCause, TableFault, cause_text};
pub use crate::limits::{LONGEST_DESCRIPTION, MOST_COMPONENT_EVENTS, MOST_UMASKS};
pub use crate::lower_name::LowerName;
pub use crate::tables::Tables;
pub use crate::unit::read_unit;
