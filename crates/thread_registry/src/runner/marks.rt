//! The marks that runs met, thread by thread.
ghost use Rattle.std.specs.Prelude.{◌≡◌, ◌<◌, All};
ghost use Rattle.thread_registry.specs.Marks.{marks_in};

use crate::runner::lines::ReplyLines;
use papi_base::THREADS;
use session_model::Ended;

/// The mark that the runs of each thread met, if they met one.
pub fn marks_of(lines: &ReplyLines) -> [Option<Ended>; THREADS as usize]
    requires threads { All (λ l. l.thread < THREADS) lines.now }
    ensures marks { result ≡ marks_in lines.now }
{
    let mut marks = [None; THREADS as usize];
    for i in 0..lines.len() {
        let t = lines.thread_at(i) as usize;
        marks[t] = marks[t].or(lines.mark_at(i));
    }
    marks
}
