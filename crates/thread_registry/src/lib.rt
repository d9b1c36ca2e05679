//! The work of all threads: which of them are registered (PAPI_register_thread(3)), the jobs of each, dealt among workers, and a whole plan of
//! many threads' calls.
#![tactic(auto)]

pub mod job;
pub mod load;
pub mod opened;
pub mod registry;
pub mod runner;
pub mod tasks;
pub mod work;

pub use job::Job;
pub use opened::Opened;
pub use registry::Registry;
pub use reply_lists::Shown;
pub use runner::{LineHead, Plan, PlanLine, Planned, ReplyLine, ReplyLines, RunResult, run_plan};
pub use work::work_all;
