//! Scripts: lines that each ask one call of one thread.
#![tactic(auto)]

mod arguments;
mod asked;
pub mod fault;
mod line;
pub mod script;
mod short;
mod words;

pub use arguments::one_number;
pub use fault::{LineFault, ScriptCause, ScriptFault, cause_text, fault_at};
pub use line::{cut_line, is_skipped, thread_in};
pub use script::{MOST_CALLS, Script, ScriptLine, Written, read_script};
pub use words::split_words;
