//! Readers: a piece of the source, and the lines in it.
ghost use Rattle.std.specs.Prelude.{◌≡◌, ◌<◌, ◌≤◌, ◌+◌, ◌-◌, ◌++◌, take, drop, length, Option, Some, None, IfSome, IfNone, IfOk, OnErr};
ghost use Rattle.std.specs.Prelude.{Bool, true, false, ℕ, List, [], Result, is_some};
ghost use Rattle.std.specs.Option.{option_map};
ghost use Rattle.papi_base.specs.Numerals.{flag_bit};
ghost use Rattle.papi_base.specs.Outside.{Rose};
ghost use Rattle.stream_reader.specs.Inside.{answer_of};

use crate::common_line::{CommonLine, common_line};
use crate::limits::{LARGEST_STREAM, LONGEST_LINE, READER_BYTES};
use crate::line::{Judgement, LineStart, begins_skipped, is_next_stamp, is_within};
use crate::newline::line_len;
use crate::next::Next;
use crate::piece::{fill, move_rest};
use papi_base::{Failed, LineCause, Occ, Source};
use std::marker::Model;

/// Gives the occurrences of a source one by one, with no memory but its own.
///
/// It reads only if it holds no whole line.
#[derive(Drop)]
pub struct StreamReader<S: Source> {
    pub(crate) source: Option<S>,
    pub(crate) bytes: [u8; READER_BYTES],
    pub(crate) from: usize,
    pub(crate) to: usize,
    pub(crate) start: LineStart,
    pub(crate) over: bool,
    asked: bool,
}

impl<S: Source> Model for StreamReader<S> {
    ghost use Rattle.std.specs.Prelude.{◌-◌, take, drop};
    ghost use Rattle.std.specs.Option.{option_map};
    ghost use Rattle.stream_reader.specs.Reader.{ReaderView};
    ghost use Rattle.stream_reader.specs.Inside.{IsReader};

    ghost Value = { ReaderView };

    ghost view = { λ r. record {
      start = r.start;
      held = take (r.to - r.from) (drop r.from r.bytes);
      over = r.over;
      asked = r.asked;
      source = option_map (λ s. record { tape = S.tape s; faults = S.faults s }) r.source;
    } };

    ghost invariant = { λ r. IsReader r.from r.to r.bytes r.start };
}

// What a line with this number and judgement gives.
#[inline(always)]
fn answer_of(number: u64, judgement: &Judgement) -> Option<Next>
    ensures { result ≡ answer_of number judgement.now }
{
    match judgement {
        Judgement::Bad(cause) => Some(Next::Bad {
            line: number,
            cause: *cause,
        }),
        Judgement::Occurs(o) => Some(Next::Occ(*o)),
        Judgement::Skipped | Judgement::Version => None,
    }
}

impl<S: Source> StreamReader<S> {
    ghost use Rattle.papi_base.specs.declared.outside.Ending.{Ending};
    ghost use Rattle.papi_base.specs.declared.outside.Ending.TheVariants.{End};
    ghost use Rattle.stream_reader.specs.declared.line.Judgement.TheVariants.{Occurs, Skipped};
    ghost use Rattle.stream_reader.specs.Lines.{IsOneLine};
    ghost use Rattle.stream_reader.specs.Judged.{judged};
    ghost use Rattle.stream_reader.specs.Occurs.{occurs_of};
    ghost use Rattle.stream_reader.specs.Reader.{ReaderView, Gave, GaveNothing, GaveOne, IsWithinLimits, NextGives, Takes, comes, coming};
    ghost use Rattle.stream_reader.specs.Reader.{faults_of, has_answer, is_last, new_view, nothing, tape_of};
    ghost use Rattle.stream_reader.specs.CommonLines.{HoldsLine};
    ghost use Rattle.stream_reader.specs.Inside.{FindsNewline, Refills, TakesLine, Turns, left_of, line_at};

    /// A reader of a stream from its first line on.
    #[tactic(auto, using(crate::proofs::Telling::new_told))]
    pub fn new(source: S) -> StreamReader<S>
        ensures view { result ≡ new_view
            (Some (record { tape = S.tape source; faults = S.faults source })) false }
        ensures coming { coming result
            ≡ option_map (λ tape. occurs_of tape.ending tape.bytes) (S.tape source) }
    {
        StreamReader::with(Some(source), false)
    }

    /// A reader of a stream with no line.
    #[tactic(auto, using(crate::proofs::Telling::ended_told))]
    pub fn ended() -> StreamReader<S>
        ensures view { result ≡ new_view None true }
        ensures coming { coming result ≡ Some nothing }
    {
        StreamReader::with(None, true)
    }

    fn with(source: Option<S>, over: bool) -> StreamReader<S>
        ensures { result ≡ new_view
            (option_map (λ s. record { tape = S.tape s; faults = S.faults s }) source) over }
    {
        StreamReader {
            source,
            bytes: [0; READER_BYTES],
            from: LONGEST_LINE,
            to: LONGEST_LINE,
            start: LineStart::FIRST,
            over,
            asked: false,
        }
    }

    /// The source as the reader left it, or `None` from a reader made by `ended`.
    pub fn into_source(self) -> Option<S>
        ensures { option_map (λ s. record { tape = S.tape s; faults = S.faults s }) result
            ≡ self.source }
    {
        self.source
    }

    /// Whether it answers `End` from now on.
    #[inline(always)]
    pub fn is_over(&self) -> bool
        ensures { result ≡ self.now.over }
    {
        self.over
    }

    // What the front of the bytes held is as a line.
    #[inline(always)]
    fn judge_front(&self, size: usize, ended: bool) -> Judgement
        requires within { size + flag_bit ended ≤ length self.now.held }
        ensures { result ≡ judged self.now.start (line_at self.now size ended) }
    {
        self.start
            .judge(&self.bytes[self.from..self.from + size], ended)
    }

    // Takes the front of the bytes held as a line that was judged so.
    #[inline(always)]
    fn take_judged(&mut self, size: usize, ended: bool, judgement: &Judgement) -> Option<Next>
        requires over { self.old.over ≡ false }
        requires within { size + flag_bit ended ≤ length self.old.held }
        requires some { 0 < size + flag_bit ended }
        requires judged { judgement.now ≡ judged self.old.start (line_at self.old size ended) }
        ensures { TakesLine self.old size ended result self.new }
    {
        let number = self.start.number;
        if judgement.is_bad() {
            self.over = true;
            return answer_of(number, judgement);
        }
        self.start.pass(size, ended, judgement);
        self.from += size + usize::from(ended);
        answer_of(number, judgement)
    }

    // Takes the front of the bytes held as a line. It stays out of line, and leaves the registers to lines of the common form.
    #[inline(never)]
    fn take_line(&mut self, size: usize, ended: bool) -> Option<Next>
        requires over { self.old.over ≡ false }
        requires within { size + flag_bit ended ≤ length self.old.held }
        requires some { 0 < size + flag_bit ended }
        ensures { TakesLine self.old size ended result self.new }
    {
        let judgement = self.judge_front(size, ended);
        self.take_judged(size, ended, &judgement)
    }

    // The next line, if it is whole and of the common form.
    #[inline(always)]
    fn common_line(&self) -> Option<CommonLine>
        ensures { IfSome result (λ line. HoldsLine self.now line.size (Occurs line.occ)) }
    {
        let line = common_line(&self.start, &self.bytes[self.from..self.to])?;
        if !is_next_stamp(&self.start, line.occ.stamp) {
            return None;
        }
        let passed = self.start.passed + line.size as u64;
        if passed > LARGEST_STREAM {
            return None;
        }
        Some(line)
    }

    // The length of the next line, if it is whole, and a comment or empty.
    #[inline(always)]
    fn skipped_line(&self) -> Option<usize>
        ensures { IfSome result (λ size. HoldsLine self.now size Skipped) }
    {
        let text = &self.bytes[self.from..self.to];
        if !begins_skipped(text) {
            return None;
        }
        let size = line_len(text)?;
        if !is_within(&self.start, size) {
            return None;
        }
        Some(size)
    }

    // Asks for a piece after the bytes held.
    fn refill(&mut self) -> Result<usize, Failed>
        requires { length self.old.held ≤ LONGEST_LINE }
        ensures refills { Refills self.old result self.new }
        ensures kept { is_some self.new.source ≡ is_some self.old.source }
        ensures within { IsWithinLimits self.new }
        ensures faults { faults_of self.old ≤ faults_of self.new }
        ensures failed { OnErr result (Rose (faults_of self.old) (faults_of self.new)) }
        ensures nearer { IfOk result (λ n. 0 < n → left_of self.new < left_of self.old) }
    {
        move_rest(&mut self.bytes, self.from, self.to);
        self.from = LONGEST_LINE - (self.to - self.from);
        self.to = LONGEST_LINE;
        let read = fill(&mut self.source, &mut self.bytes);
        self.to += read.unwrap_or(0);
        read
    }

    // How many bytes are held.
    fn held_len(&self) -> usize
        ensures { result ≡ length self.now.held }
    {
        self.to - self.from
    }

    // The length of the next line, if it is whole.
    #[inline(always)]
    fn line_len(&self) -> Option<usize>
        ensures { FindsNewline self.now.held result }
    {
        line_len(&self.bytes[self.from..self.to])
    }

    // Gives nothing from now on.
    fn give_up(&mut self)
        ensures over { self.new ≡ record self.old { over = true } }
        ensures within { IsWithinLimits self.new }
    {
        self.over = true;
    }

    // The last line, if the source has ended.
    #[tactic(auto, using(crate::proofs::Turning::end_takes, crate::proofs::Turning::last_takes))]
    fn take_last(&mut self) -> Next
        requires over { self.old.over ≡ false }
        requires line { IsOneLine self.old.held }
        requires ended { IfSome (tape_of self.old)
            (λ tape. (tape.bytes ≡ []) × (tape.ending ≡ End)) }
        ensures takes { Takes self.old result self.new }
        ensures counts { Gave self.old.start (Some result) self.new.start }
        ensures over { self.new.over ≡ true }
        ensures source { self.new.source ≡ self.old.source }
        ensures asked { self.new.asked ≡ self.old.asked }
        ensures within { IsWithinLimits self.new }
        ensures sound { result ≡ Next.ReadFault → ⊥ }
    {
        let size = self.held_len();
        if size == 0 {
            self.give_up();
            return Next::End;
        }
        let answer = self.take_line(size, false);
        self.give_up();
        answer.unwrap_or(Next::End)
    }

    // The next piece, or what stands if the source ended or failed.
    #[tactic(auto, using(crate::proofs::Turning::fault_takes, crate::proofs::Turning::piece_passes, crate::proofs::Turning::takes_after))]
    fn take_piece(&mut self) -> Option<Next>
        requires over { self.old.over ≡ false }
        requires short { length self.old.held ≤ LONGEST_LINE }
        requires line { IsOneLine self.old.held }
        ensures turns { Turns self.old result self.new }
        ensures last { IfSome result (λ _. self.new.over ≡ true) }
    {
        match self.refill() {
            Ok(0) => Some(self.take_last()),
            Ok(_) => None,
            Err(Failed) => {
                self.give_up();
                Some(Next::ReadFault)
            }
        }
    }

    // One turn: the next line if it is whole, else the next piece.
    #[tactic(auto, using(crate::proofs::Turning::line_turns, crate::proofs::Turning::line_hand, crate::proofs::Turning::no_answer, crate::proofs::Turning::long_takes))]
    fn turn(&mut self) -> Option<Next>
        requires { self.old.over ≡ false }
        ensures turns { Turns self.old result self.new }
        ensures at_hand { has_answer self.old ≡ true → (self.new.source ≡ self.old.source)
            × IfNone result (has_answer self.new ≡ true) }
    {
        if let Some(line) = self.common_line() {
            return self.take_judged(line.size, true, &Judgement::Occurs(line.occ));
        }
        if let Some(size) = self.skipped_line() {
            return self.take_judged(size, true, &Judgement::Skipped);
        }
        if let Some(size) = self.line_len() {
            return self.take_line(size, true);
        }
        if self.held_len() > LONGEST_LINE {
            let line = self.start.number;
            self.give_up();
            return Some(Next::Bad {
                line,
                cause: LineCause::Long,
            });
        }
        self.take_piece()
    }

    /// The next occurrence, if its line is whole and of the common form. If it is not, nothing changes.
    #[inline(always)]
    pub fn next_common(&mut self) -> Option<Occ>
        ensures told { IfSome result
            (λ o. NextGives (coming self.old) (Next.Occ o) (coming self.new)) }
        ensures takes { IfSome result (λ o. Takes self.old (Next.Occ o) self.new) }
        ensures counts { IfSome result (λ o. GaveOne self.old.start o self.new.start) }
        ensures within { IsWithinLimits self.new }
        ensures over { self.new.over ≡ self.old.over }
        ensures ended { self.old.over ≡ true → result ≡ None }
        ensures source { self.new.source ≡ self.old.source }
        ensures asked { IfSome result (λ _. self.new.asked ≡ true) }
        ensures none { IfNone result (self.new ≡ self.old) }
    {
        if self.over {
            return None;
        }
        let line = self.common_line()?;
        self.asked = true;
        let _answer = self.take_judged(line.size, true, &Judgement::Occurs(line.occ));
        Some(line.occ)
    }

    /// Passes the next line over if it is whole, and a comment or empty. If it is not, nothing changes.
    #[inline(always)]
    pub fn pass_skipped(&mut self) -> bool
        ensures coming { coming self.new ≡ coming self.old }
        ensures told_or_not { (e : Ending) (more : List ℕ)
            → comes self.new e more ≡ comes self.old e more }
        ensures counts { GaveNothing self.old.start self.new.start }
        ensures within { IsWithinLimits self.new }
        ensures over { self.new.over ≡ self.old.over }
        ensures ended { self.old.over ≡ true → result ≡ false }
        ensures at_hand { has_answer self.old ≡ true → has_answer self.new ≡ true }
        ensures source { self.new.source ≡ self.old.source }
        ensures asked { result ≡ true → self.new.asked ≡ true }
        ensures fewer { result ≡ true → length self.new.held < length self.old.held }
        ensures not { result ≡ false → self.new ≡ self.old }
    {
        if self.over {
            return false;
        }
        match self.skipped_line() {
            Some(size) => {
                self.asked = true;
                let _answer = self.take_judged(size, true, &Judgement::Skipped);
                true
            }
            None => false,
        }
    }

    /// The next occurrence, or why there is none.
    pub fn next(&mut self) -> Next
        ensures told { NextGives (coming self.old) result (coming self.new) }

        // Told or not, the answer is what the bytes held and those taken in this call say.
        ensures takes { Takes self.old result self.new }
        ensures counts { Gave self.old.start (Some result) self.new.start }
        ensures within { IsWithinLimits self.new }

        // It answers `End` for ever after `End`, a bad line or a fault.
        ensures over { is_last result ≡ true → self.new.over ≡ true }
        ensures ended { self.old.over ≡ true → (result ≡ Next.End)
            × (self.new ≡ record self.old { asked = true }) }

        // It takes nothing if a whole line is at hand that is not skipped.
        ensures at_hand { has_answer self.old ≡ true → self.new.source ≡ self.old.source }
        ensures kept { is_some self.new.source ≡ is_some self.old.source }
        ensures faults { faults_of self.old ≤ faults_of self.new }
        ensures failed { result ≡ Next.ReadFault → Rose (faults_of self.old) (faults_of self.new) }
        ensures asked { self.new.asked ≡ true }
    {
        self.asked = true;
        if self.over {
            return Next::End;
        }
        loop {
            if let Some(next) = self.turn() {
                return next;
            }
        }
    }
}
