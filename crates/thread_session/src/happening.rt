//! Occurrences that a program hands over as numbers while it runs: docs/FORMATS.md. No memory is taken.
ghost use Rattle.std.specs.Prelude.{◌≡◌, ◌≢◌, ◌<◌, ◌≤◌, ◌+◌, drop, false, length, min, take};
ghost use Rattle.papi_base.specs.declared.limits.TheConstants.{LARGEST_AMOUNT};
ghost use Rattle.thread_core.specs.Stands.{has_stamp};
ghost use Rattle.thread_session.specs.Happening.{Happens, occurrence};
ghost use Rattle.thread_session.specs.declared.filling.TheConstants.{MOST_PASSED};
ghost use Rattle.thread_session.specs.declared.happening.Halt.TheVariants as halt;

use crate::filling::{MOST_PASSED, place};
use crate::session::Session;
use overflow_dispatch::Note;
use papi_base::{LARGEST_AMOUNT, Occ, Source};
use postfix_rules::PresetBook;

/// A native event as a line of a stream names it, where it occurs, and how much of it occurs.
#[derive(Clone, Copy, Debug)]
pub struct Happening {
    pub comp: u8,
    pub select: u8,
    pub umask: u8,
    pub kernel: bool,
    pub pc: u64,
    pub amount: u32,
}

/// Why no more of it happens.
#[derive(Clone, Copy, Debug)]
pub enum Halt {
    /// All of it has happened.
    Done,
    /// Fewer than 32 notes have room.
    Full,
    /// The thread has taken as many occurrences as a thread may.
    Spent,
    /// The stream has not ended, so that occurrences may still come of it. Nothing happens.
    Streaming,
}

/// How much has happened, how many notes were written, and why no more of it happens.
#[derive(Clone, Copy, Debug)]
pub struct Happened {
    pub amount: u32,
    pub notes: usize,
    pub halt: Halt,
}

impl Happening {
    // The next occurrence, if so much is left to happen.
    #[inline(always)]
    fn occurrence(&self, left: u32, stamp: u64) -> Occ
        ensures { result ≡ occurrence self.now (min left LARGEST_AMOUNT) stamp }
    {
        Occ {
            comp: self.comp,
            select: self.select,
            umask: self.umask,
            kernel: self.kernel,
            amount: left.min(u32::from(LARGEST_AMOUNT)) as u8,
            pc: self.pc,
            stamp,
        }
    }
}

impl<S: Source> Session<S> {
    ghost use Rattle.thread_session.specs.Stands.{IsReady};

    /// This happens, as occurrences one after another of the largest amount and a last one of what is left, and a note of each
    /// passing of a threshold is written into the place. If fewer than 32 notes have room it stops before the next occurrence, so
    /// that no note is lost. Nothing happens before the stream has ended.
    pub fn happen_into(&mut self, book: &PresetBook, what: &Happening, out: &mut [Note]) -> Happened
        requires ready { IsReady book.now self.old }
        ensures happens { Happens book.now self.old self.new what.now result.amount
            (take result.notes out.new) }
        ensures within { result.amount ≤ what.now.amount }
        ensures done { result.halt ≡ halt.Done → result.amount ≡ what.now.amount }
        ensures full { result.halt ≡ halt.Full → length out.new < result.notes + MOST_PASSED }
        ensures spent { result.halt ≡ halt.Spent → has_stamp self.new.core ≡ false }
        ensures early { result.halt ≢ halt.Done → result.halt ≢ halt.Streaming
            → result.amount < what.now.amount }
        ensures streaming { result.halt ≡ halt.Streaming → self.old.reader.over ≡ false }
        ensures ended { self.old.reader.over ≡ false → result.halt ≡ halt.Streaming }
        ensures nothing { result.halt ≡ halt.Streaming → result.amount ≡ 0 }
        ensures fits { result.notes ≤ length out.new }
        ensures rest { drop result.notes out.new ≡ drop result.notes out.old }
        ensures length { length out.new ≡ length out.old }
        ensures ready { IsReady book.now self.new }
    {
        // The book is read by contracts alone.
        let _book = book;
        if !self.reader.is_over() {
            return Happened {
                amount: 0,
                notes: 0,
                halt: Halt::Streaming,
            };
        }
        let thread = self.core.thread();
        let mut went = 0;
        let mut notes = 0;
        while went < what.amount {
            if out.len() - notes < MOST_PASSED {
                return Happened {
                    amount: went,
                    notes,
                    halt: Halt::Full,
                };
            }
            let Some(stamp) = self.core.next_stamp() else {
                return Happened {
                    amount: went,
                    notes,
                    halt: Halt::Spent,
                };
            };
            let o = what.occurrence(what.amount - went, stamp);
            let taken = self.core.take(&o);
            let passed = taken.passed.len() as usize;
            place(out, notes, thread, &taken, &o);
            notes += passed;
            went += u32::from(o.amount);
        }
        Happened {
            amount: went,
            notes,
            halt: Halt::Done,
        }
    }
}
