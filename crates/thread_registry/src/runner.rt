//! A plan of many threads' calls, run by several workers: the replies come back in the order of the script.

mod deal;
mod jobs;
mod lending;
pub mod lines;
mod marks;
mod merge;
pub mod plan;
pub mod result;
mod run;
mod works;

pub use lines::{LineHead, ReplyLines};
pub use plan::{Plan, PlanLine, Planned};
pub use result::{ReplyLine, RunResult};
pub use run::run_plan;
