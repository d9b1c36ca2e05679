//! Runs into a place of fixed room: PAPI_overflow(3), for callers that take notes after the run. No memory is taken.
ghost use Rattle.std.specs.Prelude.{◌≡◌, ◌<◌, ◌≤◌, ◌+◌, ◌++◌, [], drop, length, map, take, true};
ghost use Rattle.papi_base.specs.Streams.{Coming};
ghost use Rattle.session_model.specs.Thresholds.{note};
ghost use Rattle.call_type.specs.declared.call.Call.TheVariants.{Run};
ghost use Rattle.session_model.specs.declared.reply.Ended.TheVariants as ended;
ghost use Rattle.thread_session.specs.declared.filling.TheConstants.{MOST_PASSED};

use crate::session::Session;
use overflow_dispatch::Note;
use papi_base::{Occ, Source};
use postfix_rules::PresetBook;
use session_model::{Ended, Ran};
use stream_reader::Next;
use thread_core::Taken;

/// How many thresholds one occurrence passes at most: one set runs on its component, and a set has at most 32 events.
pub const MOST_PASSED: usize = 32;

/// What a run into a place did, and whether it stopped early since an occurrence more might not have found room.
#[derive(Clone, Copy)]
pub struct Filled {
    pub ran: Ran,
    pub full: bool,
}

// Writes a note for each threshold that the occurrence passed, in order, from this place on.
pub(crate) fn place(out: &mut [Note], at: usize, thread: u32, taken: &Taken, o: &Occ)
    requires room { at + length taken.now.passed ≤ length out.old }
    ensures length { length out.new ≡ length out.old }
    ensures written { take (at + length taken.now.passed) out.new
        ≡ take at out.old ++ map (note thread taken.now.set o.now) taken.now.passed }
    ensures rest { drop (at + length taken.now.passed) out.new
        ≡ drop (at + length taken.now.passed) out.old }
{
    let mut left = taken.passed.copied();
    for i in 0..taken.passed.len() {
        let index = left.pop_first().unwrap_or(0);
        out[at + i as usize] = Note {
            thread,
            set: taken.set,
            index,
            pc: o.pc,
        };
    }
}

impl<S: Source> Session<S> {
    ghost use Rattle.thread_session.specs.Faults.{FaultsKept, FaultsRose, fault_count};
    ghost use Rattle.thread_session.specs.Room.{asked_for};
    ghost use Rattle.thread_session.specs.Follows.{FollowsAs, FollowsTo, run_reply};
    ghost use Rattle.thread_session.specs.Prospects.{CanCome};
    ghost use Rattle.thread_session.specs.Stands.{IsReady};

    /// Consumes up to `n` occurrences of the stream, and writes a note of each passing of a threshold into the place. If fewer than
    /// 32 notes have room it stops before the next occurrence, so that no note is lost.
    pub fn run_into(&mut self, book: &PresetBook, n: u32, out: &mut [Note]) -> Filled
        requires ready { IsReady book.now self.old }
        ensures follows { FollowsAs book.now self.old self.new (Run (asked_for n result))
            (run_reply result.ran) [] (take result.ran.notes out.new) }
        ensures towards { (left : Coming) → CanCome self.new.reader left
            → FollowsTo book.now self.old self.new (Run (asked_for n result))
            (run_reply result.ran) [] (take result.ran.notes out.new) left }
        ensures full { result.full ≡ true → length out.new < result.ran.notes + MOST_PASSED }
        ensures early { result.full ≡ true → result.ran.consumed < n }
        ensures fits { result.ran.notes ≤ length out.new }
        ensures rest { drop result.ran.notes out.new ≡ drop result.ran.notes out.old }
        ensures length { length out.new ≡ length out.old }
        ensures ready { IsReady book.now self.new }
        ensures shape { self.new.core.shape ≡ self.old.core.shape }
        ensures faults { FaultsKept (fault_count self.old.reader) (fault_count self.new.reader) }
        ensures faulty { result.ran.ended ≡ ended.Fault
            → FaultsRose (fault_count self.old.reader) (fault_count self.new.reader) }
    {
        // The book is read by contracts alone.
        let _book = book;
        let thread = self.core.thread();
        let mut consumed = 0;
        let mut notes = 0;
        let mut ended = Ended::Going;
        let mut full = false;
        while consumed < n {
            if out.len() - notes < MOST_PASSED {
                full = true;
                break;
            }
            match self.reader.next() {
                Next::Occ(o) => {
                    let taken = self.core.take(&o);
                    let passed = taken.passed.len() as usize;
                    place(out, notes, thread, &taken, &o);
                    consumed += 1;
                    notes += passed;
                }
                Next::End => break,
                Next::Bad { line, cause } => {
                    ended = Ended::Bad { line, cause };
                    break;
                }
                Next::ReadFault => {
                    ended = Ended::Fault;
                    break;
                }
            }
        }
        let ran = Ran {
            consumed,
            notes: notes as u64,
            ended,
        };
        Filled { ran, full }
    }
}
