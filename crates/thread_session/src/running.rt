//! Runs: a session consumes occurrences of its stream.
ghost use Rattle.std.specs.Prelude.{◌≡◌, ◌≤◌, ◌++◌, IfOk, OnErr, OnOk, Some, is_some, true};
ghost use Rattle.overflow_dispatch.specs.Notes.{Grown, PartAdded};
ghost use Rattle.papi_base.specs.Outside.{Rose};
ghost use Rattle.papi_base.specs.Streams.{Coming};
ghost use Rattle.session_model.specs.Account.{Account};
ghost use Rattle.session_model.specs.Step.{step};
ghost use Rattle.call_type.specs.declared.call.Call.TheVariants.{Run};
ghost use Rattle.session_model.specs.declared.reply.Ended.TheVariants as ended;
ghost use Rattle.stream_reader.specs.Reader.{Gave, IsWithinLimits, NextGives, Takes, coming, faults_of, is_last};

use crate::delivery::deliver;
use crate::session::Session;
use overflow_dispatch::Handler;
use papi_base::Source;
use postfix_rules::PresetBook;
use session_model::{Ended, Ran};
use std::alloc::AllocError;
use stream_reader::{Next, StreamReader};

// What comes next of no common form. It stays out of line, and leaves the registers to the lines that come most.
#[inline(never)]
fn next_other<S: Source>(reader: &mut StreamReader<S>) -> Next
    ensures told { NextGives (coming reader.old) result (coming reader.new) }
    ensures takes { Takes reader.old result reader.new }
    ensures counts { Gave reader.old.start (Some result) reader.new.start }
    ensures within { IsWithinLimits reader.new }
    ensures over { is_last result ≡ true → reader.new.over ≡ true }
    ensures ended { reader.old.over ≡ true → (result ≡ Next.End)
        × (reader.new ≡ record reader.old { asked = true }) }
    ensures kept { is_some reader.new.source ≡ is_some reader.old.source }
    ensures faults { faults_of reader.old ≤ faults_of reader.new }
    ensures failed { result ≡ Next.ReadFault
        → Rose (faults_of reader.old) (faults_of reader.new) }
{
    reader.next()
}

impl<S: Source> Session<S> {
    ghost use Rattle.thread_session.specs.Faults.{FaultsKept, FaultsRose, fault_count};
    ghost use Rattle.thread_session.specs.Follows.{FollowsAs, FollowsTo, IsCut, IsCutTo, run_reply};
    ghost use Rattle.thread_session.specs.Prospects.{CanCome};
    ghost use Rattle.thread_session.specs.Stands.{IsReady, Stands};

    // Consumes up to `n` occurrences.
    fn consume(&mut self, book: &PresetBook, n: u32, h: &mut dyn Handler) -> Result<Ran, AllocError>
        requires ready { IsReady book.now self.old }
        ensures follows { IfOk result
            (λ ran. FollowsAs book.now self.old self.new (Run n) (run_reply ran) (notes h.old)
            (notes h.new)) }
        ensures cut { OnErr result
            (IsCut book.now self.old self.new n (notes h.old) (notes h.new)) }
        ensures towards { (left : Coming) → CanCome self.new.reader left
            → IfOk result (λ ran. FollowsTo book.now self.old self.new (Run n) (run_reply ran)
            (notes h.old) (notes h.new) left) }
        ensures ready { IsReady book.now self.new }
        ensures shape { self.new.core.shape ≡ self.old.core.shape }
        ensures faults { FaultsKept (fault_count self.old.reader) (fault_count self.new.reader) }
        ensures faulty { IfOk result
            (λ ran. ran.ended ≡ ended.Fault
            → FaultsRose (fault_count self.old.reader) (fault_count self.new.reader)) }
    {
        // The book is read by contracts alone.
        let _book = book;
        let thread = self.core.thread();
        let mut consumed = 0;
        let mut notes = 0;
        let mut ended = Ended::Going;
        while consumed < n {
            if let Some(o) = self.reader.next_common() {
                let taken = self.core.take(&o);
                consumed += 1;
                notes += u64::from(taken.passed.len());
                deliver(h, thread, &taken, &o)?;
                continue;
            }
            if self.reader.pass_skipped() {
                continue;
            }
            match next_other(&mut self.reader) {
                Next::Occ(o) => {
                    let taken = self.core.take(&o);
                    consumed += 1;
                    notes += u64::from(taken.passed.len());
                    deliver(h, thread, &taken, &o)?;
                }
                Next::End => break,
                Next::Bad { line, cause } => {
                    ended = Ended::Bad { line, cause };
                    break;
                }
                Next::ReadFault => {
                    ended = Ended::Fault;
                    break;
                }
            }
        }
        Ok(Ran {
            consumed,
            notes,
            ended,
        })
    }

    /// Consumes up to `n` occurrences of the stream, and tells the handler each passing of a threshold as it comes. Memory is
    /// taken by the handler alone.
    pub fn run(&mut self, book: &PresetBook, n: u32, h: &mut dyn Handler) -> Result<Ran, AllocError>
        requires ready { IsReady book.now self.old }
        ensures stands { (a : Account) → Stands book.now self.old a
            → OnOk result (Stands book.now self.new
            (step book.now self.old.core.shape a (Run n)).account) }
        ensures reply { (a : Account) → Stands book.now self.old a
            → IfOk result (λ ran. run_reply ran
            ≡ (step book.now self.old.core.shape a (Run n)).reply) }
        ensures notes { (a : Account) → Stands book.now self.old a
            → OnOk result (notes h.new
            ≡ notes h.old ++ (step book.now self.old.core.shape a (Run n)).notes) }
        ensures part { (a : Account) → Stands book.now self.old a
            → OnErr result (PartAdded (notes h.old)
            (step book.now self.old.core.shape a (Run n)).notes (notes h.new)) }

        // Told or not.
        ensures follows { IfOk result
            (λ ran. FollowsAs book.now self.old self.new (Run n) (run_reply ran) (notes h.old)
            (notes h.new)) }
        ensures cut { OnErr result
            (IsCut book.now self.old self.new n (notes h.old) (notes h.new)) }
        ensures towards { (left : Coming) → CanCome self.new.reader left
            → IfOk result (λ ran. FollowsTo book.now self.old self.new (Run n) (run_reply ran)
            (notes h.old) (notes h.new) left) }
        ensures cut_to { (left : Coming) → CanCome self.new.reader left
            → OnErr result (IsCutTo book.now self.old (Run n) (notes h.old) (notes h.new) left) }
        ensures grown { Grown (notes h.old) (notes h.new) }
        ensures ready { IsReady book.now self.new }
        ensures shape { self.new.core.shape ≡ self.old.core.shape }
        ensures faults { FaultsKept (fault_count self.old.reader) (fault_count self.new.reader) }
        ensures faulty { IfOk result
            (λ ran. ran.ended ≡ ended.Fault
            → FaultsRose (fault_count self.old.reader) (fault_count self.new.reader)) }
    {
        self.consume(book, n, h)
    }
}
