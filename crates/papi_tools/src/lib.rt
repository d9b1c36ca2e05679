//! The tools, and the top call that carries out what the words ask for.
#![tactic(auto)]

mod contents;
mod input;
mod laws;
mod limits;
mod marks;
mod no_files;
mod opening;
mod output;
mod preset_file;
mod refusal;
mod said;
mod saying;
mod script_run;
mod settling;
mod soak_totals;
mod status;
mod streams;
mod tables;
mod tool;
mod top;

// tools/make_tools: begin modules
mod choosing;
mod decoding;
mod encoding;
mod native_listing;
mod preset_listing;
mod profiling;
mod region_counts;
mod run;
mod soaking;
// tools/make_tools: end modules

pub use laws::{causes_law, run_laws, status_law, totals_law, unit_law};
pub use limits::{SCRIPT_BYTES, TABLE_BYTES};
pub use output::Output;
pub use refusal::{FileCause, Refusal, Stop};
pub use said::{Said, ToolResult};
pub use status::{Outcome, Status, status_number};
pub use top::papi_main;

// tools/make_tools: begin functions
pub use tool::{
    avail, decode, encode_tool, event_chooser, native_avail, profil_tool, regions_tool, run_tool,
    soak,
};
// tools/make_tools: end functions
