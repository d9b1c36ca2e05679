//! Scripts, from their lines to the text of their replies.
#![tactic(auto)]

mod asking;
mod fitting;
mod gathering;
mod planning;
mod resolving;
mod writing;

pub use fitting::script_fits;
pub use resolving::resolve;
pub use script_lines::{
    Script, ScriptCause, ScriptFault, ScriptLine, Written, cause_text, read_script,
};
pub use thread_registry::{Plan, PlanLine, Planned, ReplyLine, ReplyLines, RunResult, run_plan};
pub use writing::{write_notes, write_replies};
