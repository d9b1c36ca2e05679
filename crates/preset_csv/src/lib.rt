//! Preset files: what the events of the preset table are derived from, for one cpu. Source: PAPI's papi_events.csv.
#![tactic(auto)]

mod definition;
mod entry;
mod fault;
mod group;
mod judging;
mod kind;
mod natives;
mod reading;
mod row;
mod symbols;
mod table;
mod writing;

pub use crate::definition::Def;
pub use crate::entry::Entry;
pub use crate::fault::{PresetCause, PresetFault, cause_text};
pub use crate::group::Group;
pub use crate::judging::{Judgement, RowJudge, formula_refusal, judge};
pub use crate::kind::{DerivedType, Kind, kind_text, type_of};
pub use crate::natives::row_natives;
pub use crate::reading::{Taken, all_missing, read_presets, take_line};
pub use crate::row::{Row, row_of};
pub use crate::symbols::{
    PRESETS, preset_code, preset_count, preset_row, preset_symbol, preset_text, symbol_row,
};
pub use crate::table::PresetTable;
pub use crate::writing::{put_def, put_entry, put_field, write_presets};
