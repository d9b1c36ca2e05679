//! Lines, and what each of them is.
ghost use Rattle.std.specs.Prelude.{◌≡◌, ◌<◌, ◌≤◌, ◌+◌, ◌^◌, true, length, if◌then◌else◌};
ghost use Rattle.stream_reader.specs.CommonLines.{BeginsSkipped};
ghost use Rattle.stream_reader.specs.Judged.{fields_judged, fields_of, has_fields, is_above, is_next_stamp, judged, occurrence_judged, text_judged, without_return};
ghost use Rattle.stream_reader.specs.Lines.{Line};
ghost use Rattle.stream_reader.specs.Occurs.{after, is_bad};
ghost use Rattle.papi_base.specs.declared.occurrence.LineCause.TheVariants as cause;

use crate::limits::{LARGEST_STREAM, LONGEST_LINE, READER_BYTES};
use crate::occurrence::occurrence;
use papi_base::{LAST_STAMP, LineCause, Occ};

/// What is known where a line of a stream begins.
#[derive(Clone, Copy)]
pub struct LineStart {
    /// The line's number, from 1.
    pub number: u64,
    /// How many bytes of the stream come before it.
    pub passed: u64,
    /// Whether the stream has version 2, whose occurrences carry stamps of their own.
    pub stamped: bool,
    /// How many occurrences come before it.
    pub given: u64,
    /// The stamp of the last of them.
    pub last: Option<u64>,
}

/// What a line is.
#[derive(Clone, Copy)]
pub enum Judgement {
    Bad(LineCause),
    /// An empty line or a comment.
    Skipped,
    /// The first line of a stream of version 2.
    Version,
    Occurs(Occ),
}

impl Judgement {
    /// Whether the stream is given up at the line.
    #[inline(always)]
    pub fn is_bad(&self) -> bool
        ensures { result ≡ is_bad self.now }
    {
        match self {
            Judgement::Bad(_) => true,
            _ => false,
        }
    }
}

// How many fields a line has.
fn number_of_fields(text: &[u8]) -> usize
    ensures { result ≡ length (fields_of text.now) }
{
    let mut spaces = 0;
    for byte in text {
        if *byte == b' ' {
            spaces += 1;
        }
    }
    spaces + 1
}

// Why a line that is not skipped writes no occurrence.
#[cold]
fn cause_of(start: &LineStart, text: &[u8]) -> LineCause
    ensures { result ≡ (if has_fields start.now.stamped (fields_of text.now) then cause.Field
        else cause.Fields) }
{
    let wanted = if start.stamped { 7 } else { 6 };
    if number_of_fields(text) == wanted {
        LineCause::Field
    } else {
        LineCause::Fields
    }
}

/// Whether the first line of a text, if it is whole, is a comment or empty.
#[inline(always)]
pub(crate) fn begins_skipped(text: &[u8]) -> bool
    ensures { result ≡ true → BeginsSkipped text.now }
{
    !text.is_empty() && (text[0] == b'#' || text[0] == b'\n')
}

/// Whether a line of this length is not too long, and the stream with it not too large.
#[inline(always)]
pub(crate) fn is_within(start: &LineStart, size: usize) -> bool
    requires { start.now.passed < 2 ^ 32 }
    ensures { result ≡ true → (size ≤ LONGEST_LINE) × (start.now.passed + size ≤ LARGEST_STREAM) }
{
    size <= LONGEST_LINE && start.passed + size as u64 <= LARGEST_STREAM
}

// Whether a stamp is above the last one.
#[inline(always)]
fn is_above(last: Option<u64>, stamp: u64) -> bool
    ensures { result ≡ is_above last stamp }
{
    match last {
        None => true,
        Some(last) => last < stamp,
    }
}

/// Whether an occurrence can have this stamp.
#[inline(always)]
pub(crate) fn is_next_stamp(start: &LineStart, stamp: u64) -> bool
    ensures { result ≡ is_next_stamp start.now stamp }
{
    if start.stamped {
        is_above(start.last, stamp)
    } else {
        stamp <= u64::from(LAST_STAMP)
    }
}

// Judges a line that is neither skipped nor the version.
#[inline(always)]
fn judge_fields(start: &LineStart, text: &[u8]) -> Judgement
    ensures { result ≡ fields_judged start.now (fields_of text.now) }
{
    match occurrence(start, text) {
        Some(o) if !is_next_stamp(start, o.stamp) => Judgement::Bad(LineCause::Stamp),
        Some(o) => Judgement::Occurs(o),
        None => Judgement::Bad(cause_of(start, text)),
    }
}

// Judges a line without its carriage return.
#[tactic(auto, unfolding(crate::specs::Judged::text_judged))]
#[inline(always)]
fn judge_text(start: &LineStart, text: &[u8]) -> Judgement
    ensures { result ≡ text_judged start.now text.now }
{
    if start.number == 1 && text == b"version 2".as_slice() {
        return Judgement::Version;
    }
    if text.is_empty() || text[0] == b'#' {
        return Judgement::Skipped;
    }
    judge_fields(start, text)
}

// The line without a carriage return at its end.
#[tactic(auto, using(crate::proofs::Returns::with_return, crate::proofs::Returns::no_return, crate::proofs::Returns::nothing))]
#[inline(always)]
fn without_return(line: &[u8]) -> &[u8]
    ensures { result.now ≡ without_return line.now }
{
    if !line.is_empty() && line[line.len() - 1] == b'\r' {
        return &line[..line.len() - 1];
    }
    line
}

impl LineStart {
    /// The place where a stream begins.
    pub const FIRST: LineStart = LineStart {
        number: 1,
        passed: 0,
        stamped: false,
        given: 0,
        last: None,
    };

    /// What the line that begins here is, which a newline ends or not.
    #[tactic(auto, unfolding(crate::specs::Judged::judged))]
    #[inline(always)]
    pub fn judge(&self, line: &[u8], ended: bool) -> Judgement
        requires { self.now.passed < 2 ^ 32 }
        ensures { result ≡ judged self.now (record { bytes = line.now; ended = ended }) }
    {
        if line.len() > LONGEST_LINE {
            return Judgement::Bad(LineCause::Long);
        }
        if self.passed + line.len() as u64 > LARGEST_STREAM {
            return Judgement::Bad(LineCause::Size);
        }
        judge_text(self, if ended { without_return(line) } else { line })
    }

    /// Goes on after a line of this length.
    #[inline(always)]
    pub fn pass(&mut self, size: usize, ended: bool, judgement: &Judgement)
        requires number { self.old.number < 2 ^ 32 }
        requires passed { self.old.passed < 2 ^ 32 }
        requires given { self.old.given < 2 ^ 32 }
        requires size { size ≤ READER_BYTES }
        ensures { (line : Line) → length line.bytes ≡ size → line.ended ≡ ended
            → self.new ≡ after self.old line judgement.now }
    {
        self.number += 1;
        self.passed += size as u64 + u64::from(ended);
        match judgement {
            Judgement::Bad(_) | Judgement::Skipped => {}
            Judgement::Version => self.stamped = true,
            Judgement::Occurs(o) => {
                self.given += 1;
                self.last = Some(o.stamp);
            }
        }
    }
}
