//! What a run gives.
use crate::runner::lines::ReplyLines;
use call_type::CallName;
use papi_base::THREADS;
use session_model::{Ended, Reply};

/// The reply to a line: the number of its script line from 1, its thread, the name of its call, and the reply.
#[derive(Drop)]
pub struct ReplyLine {
    pub line: u64,
    pub thread: u32,
    pub word: CallName,
    pub reply: Reply,
}

/// The replies in the order of the script, and the mark that the runs of each thread met, if they met one.
#[derive(Drop)]
pub struct RunResult {
    pub lines: ReplyLines,
    pub marks: [Option<Ended>; THREADS as usize],
}
