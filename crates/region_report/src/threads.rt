//! Which threads have lines. Few of the threads that there can be have some.

ghost use Rattle.std.specs.Prelude.{◌≡◌, ◌<◌, ◌==◌, ◌||◌, ℕ, false, map, slice_index_or};
ghost use Rattle.papi_base.specs.declared.limits.TheConstants.{THREADS};
ghost use Rattle.region_report.specs.Calls.{has_lines};
ghost use Rattle.region_report.specs.Spans.{has_spans, span_text};

use crate::regions::RegionLine;
use crate::spans::LineSpan;
use papi_base::THREADS;

// Flags a thread among those that there can be.
fn flag_thread(flags: &mut [bool; THREADS as usize], thread: u32)
    ensures { (t : ℕ) → t < THREADS → slice_index_or flags.new t false
        ≡ (slice_index_or flags.old t false || (thread == t)) }
{
    if thread < THREADS {
        flags[thread as usize] = true;
    }
}

// For each thread whether some line is of it.
pub(crate) fn threads_of_lines(lines: &[RegionLine]) -> [bool; THREADS as usize]
    ensures { (t : ℕ) → t < THREADS → slice_index_or result t false ≡ has_lines lines.now t }
{
    let mut flags = [false; THREADS as usize];
    for line in lines {
        flag_thread(&mut flags, line.thread);
    }
    flags
}

// For each thread whether some span is of it.
pub(crate) fn threads_of_spans(spans: &[LineSpan<'_>]) -> [bool; THREADS as usize]
    ensures { (t : ℕ) → t < THREADS
        → slice_index_or result t false ≡ has_spans (map span_text spans.now) t }
{
    let mut flags = [false; THREADS as usize];
    for span in spans {
        flag_thread(&mut flags, span.line.thread);
    }
    flags
}
