//! Why a script is refused.

ghost use Rattle.std.specs.Prelude.{◌≡◌};
ghost use Rattle.table_rows.specs.declared.fault.RowRefusal.TheVariants as refusal;
ghost use Rattle.script_lines.specs.Causes as Causes;
ghost use Rattle.script_lines.specs.declared.fault.LineFault.TheVariants as fault;

use std::alloc::{AllocError, AllocFailed};
use std::error::Error;
use std::fmt;
use table_rows::RowRefusal;
use thiserror::Error;

/// What is wrong with a line of a script; of several causes the first in this order counts.
#[derive(Clone, Copy, Debug, PartialEq, Eq, Error)]
#[error("{}", cause_text(*self))]
pub enum ScriptCause {
    /// It is one call line more than a script may have.
    OverLimit,
    /// Its first word is not a thread.
    BadThread,
    /// Its second word is missing, or no call.
    UnknownCall,
    /// It has another number of arguments than the call, or an event with bytes that are not printable.
    BadArguments,
    /// A number is out of its form or range.
    BadNumber,
}

/// Why a text is refused that is read line by line: its first faulty line, numbered from 1, with its first cause, or memory ran out.
#[derive(Clone, Copy, Debug, PartialEq, Eq)]
pub enum LineFault<C> {
    Line { line: u64, cause: C },
    Memory,
}

/// Why a script is refused: its first line, numbered from 1, that is not a call line, or memory ran out.
pub type ScriptFault = LineFault<ScriptCause>;

impl<C: fmt::Display + Copy> fmt::Display for LineFault<C> {
    fn fmt<W: fmt::Write>(&self, f: &mut fmt::Formatter<W>) -> fmt::Result {
        match self {
            LineFault::Line { line, cause } => write!(f, "line {line}: {cause}"),
            LineFault::Memory => f.write_str("out of memory"),
        }
    }
}

impl<C: fmt::Display + fmt::Debug + Copy> Error for LineFault<C> {}

/// The fault of a text if the line of this number is refused.
pub fn fault_at<C: Copy>(line: u64, refusal: RowRefusal<C>) -> LineFault<C>
    ensures { result ≡ Causes.fault_at line refusal }
{
    match refusal {
        RowRefusal::Cause(cause) => LineFault::Line { line, cause },
        RowRefusal::Memory => LineFault::Memory,
    }
}

/// A cause in words, as a message names it.
pub fn cause_text(cause: ScriptCause) -> &'static str
    ensures text { result.now ≡ Causes.text_of cause }
{
    match cause {
        ScriptCause::OverLimit => "over a limit",
        ScriptCause::BadThread => "bad thread",
        ScriptCause::UnknownCall => "unknown call",
        ScriptCause::BadArguments => "wrong arguments",
        ScriptCause::BadNumber => "bad number",
    }
}

impl From<ScriptCause> for RowRefusal<ScriptCause> {
    ghost from_gives = { λ cause why. why ≡ refusal.Cause cause };

    fn from(cause: ScriptCause) -> RowRefusal<ScriptCause> {
        RowRefusal::Cause(cause)
    }
}

impl<C> From<AllocError> for LineFault<C> {
    ghost from_gives = { λ _ why. why ≡ fault.Memory };

    fn from(_error: AllocError) -> LineFault<C> {
        LineFault::Memory
    }
}

impl<C, T: Drop> From<AllocFailed<T>> for LineFault<C> {
    ghost from_gives = { λ _ why. why ≡ fault.Memory };

    fn from(_error: AllocFailed<T>) -> LineFault<C> {
        LineFault::Memory
    }
}
